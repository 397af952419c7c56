ghost use Rattle.std.specs.Prelude.{◌≡◌, true, length};
ghost use Rattle.model.specs.Grid.{Settings};
ghost use Rattle.model.specs.State.{takes_withdrawals, takes_close};
ghost use Rattle.model.specs.Calls.{stands_for, withdraw as withdrawal_of, close as close_of};
ghost use Rattle.model.specs.Views.{view, Came};
ghost use Rattle.book.specs.Plain.{as_plain};

use book::{Book, StandingOrder};
use model::{DayState, Phase, Refusal, TapeRecord};
use tape::Tape;
use withdrawing::{withdraw_all, withdraw_one};

// Withdraws all that is left of a member's order, and answers it.
// Member and number are two parameters, here and in the session, as the definition's withdrawal has them: a struct would be taken apart for it.
// Book, day and tape are three parameters, here and below: the first two are lent by a session, and the third by its caller.
// A struct of them would be made for one call, and taken apart in it: the tape is written from the place that the day tells.
pub fn withdraw<B: Book>(
    book: &mut B,
    day: &mut DayState,
    member: u32,
    number: u64,
    tape: &mut [TapeRecord],
) -> Result<u64, Refusal>
    requires { takes_withdrawals day.old.phase ≡ true }
    ensures came { (g : Settings) → Came (withdrawal_of (view g day.old (B.orders book.old) (B.capacity book.old)) (length tape.old) member number) result (view g day.new (B.orders book.new) (B.capacity book.new)) tape.old day.old.used tape.new }
{
    if !stands_for(member, book.find(number)) {
        return Err(Refusal::UnknownOrder);
    }
    day.ask_room(1, tape.len())?;
    let mut out = Tape::new(tape, day.used);
    let quantity = withdraw_one(book, number, &mut out);
    day.used = out.next;
    Ok(quantity)
}

// Whether an order was found, and is the member's.
fn stands_for(member: u32, order: Option<StandingOrder>) -> bool
    ensures { result ≡ stands_for member (as_plain order) }
{
    order.is_some_and(|order| order.member == member)
}

// Withdraws every order that stands, ends the day, and answers how many they were.
pub fn close<B: Book>(
    book: &mut B,
    day: &mut DayState,
    tape: &mut [TapeRecord],
) -> Result<u64, Refusal>
    requires { takes_close day.old.phase ≡ true }
    ensures came { (g : Settings) → Came (close_of (view g day.old (B.orders book.old) (B.capacity book.old)) (length tape.old)) result (view g day.new (B.orders book.new) (B.capacity book.new)) tape.old day.old.used tape.new }
{
    let (count, _) = book.count();
    day.ask_room(count, tape.len())?;
    let mut out = Tape::new(tape, day.used);
    let withdrawn = withdraw_all(book, &mut out);
    day.used = out.next;
    day.phase = Phase::Closed;
    Ok(withdrawn as u64)
}
