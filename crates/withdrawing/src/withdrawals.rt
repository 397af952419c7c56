ghost use Rattle.std.specs.Prelude.{◌≡◌, ◌<◌, ◌≤◌, true, not, [], ◌∷◌, map, length, is_some, filter};
ghost use Rattle.model.specs.declared.types.Reason.TheVariants.{ByMember, AfterAuction, AtClose};
ghost use Rattle.model.specs.declared.types.TapeRecord.TheVariants.{Withdrawal};
ghost use Rattle.model.specs.Orders.{lower, left_of, withdrawal, find as found};
ghost use Rattle.model.specs.Calls.{is_market_order};
ghost use Rattle.tape.specs.Tapes.{room as places, Recorded};
ghost use Rattle.book.specs.Meaning.{can_take};
ghost use Rattle.book.specs.Plain.{plain};

use crate::choices::{AllOrders, Choice, MarketOrders};
use crate::counting::count_markets;
use book::{Book, StandingOrder};
use model::{Reason, TapeRecord};
use tape::Tape;

// Withdraws every market order, by number, and answers how many.
// Book and tape are two parameters, in all that trades or withdraws: a struct of both would be taken apart at each order,
// since a take changes the book alone, and a write the tape alone.
pub fn withdraw_markets<B: Book>(book: &mut B, tape: &mut Tape) -> usize
    requires { length (filter is_market_order (B.orders book.old)) ≤ places tape.old }
    ensures answer { result ≡ length (filter is_market_order (B.orders book.old)) }
    ensures after { B.orders book.new ≡ filter (λ o. not (is_market_order o)) (B.orders book.old) }
    ensures room { B.capacity book.new ≡ B.capacity book.old }
    ensures records { Recorded tape.old tape.new (map (withdrawal AfterAuction) (filter is_market_order (B.orders book.old))) }
{
    // market orders rank first, so that a book without one is known at once
    let count = count_markets(book);
    if count > 0 {
        withdraw_chosen(book, MarketOrders, Reason::AfterAuction, tape);
    }
    count
}

// Withdraws every order, by number, and answers how many.
pub fn withdraw_all<B: Book>(book: &mut B, tape: &mut Tape) -> usize
    requires { length (B.orders book.old) ≤ places tape.old }
    ensures answer { result ≡ length (B.orders book.old) }
    ensures after { B.orders book.new ≡ [] }
    ensures room { B.capacity book.new ≡ B.capacity book.old }
    ensures records { Recorded tape.old tape.new (map (withdrawal AtClose) (B.orders book.old)) }
{
    let (count, _) = book.count();
    withdraw_chosen(book, AllOrders, Reason::AtClose, tape);
    count
}

// Withdraws all that is left of a standing order at its member's word, and answers it.
pub fn withdraw_one<B: Book>(book: &mut B, number: u64, tape: &mut Tape) -> u64
    requires stands { is_some (found number (B.orders book.old)) ≡ true }
    requires place { 0 < places tape.old }
    ensures answer { result ≡ left_of (found number (B.orders book.old)) }
    ensures after { B.orders book.new ≡ lower number result (B.orders book.old) }
    ensures room { B.capacity book.new ≡ B.capacity book.old }
    ensures records { Recorded tape.old tape.new (Withdrawal number result ByMember ∷ []) }
{
    let order = book.find(number).unwrap();
    withdraw_whole(book, order, Reason::ByMember, tape);
    order.left
}

// Withdraws the chosen orders, from the lowest number up.
fn withdraw_chosen<B: Book, C: Choice>(book: &mut B, choice: C, reason: Reason, tape: &mut Tape)
    requires { length (filter C.chosen (B.orders book.old)) ≤ places tape.old }
    ensures after { B.orders book.new ≡ filter (λ o. not (C.chosen o)) (B.orders book.old) }
    ensures room { B.capacity book.new ≡ B.capacity book.old }
    ensures records { Recorded tape.old tape.new (map (withdrawal reason) (filter C.chosen (B.orders book.old))) }
{
    let mut last = 0;
    // a walk by number, and no iterator: the book changes under it
    while let Some(order) = book.after(last) {
        if choice.chooses(order) {
            withdraw_whole(book, order, reason, tape);
        }
        last = order.number;
    }
}

// Withdraws all that is left of an order, and writes its record.
fn withdraw_whole<B: Book>(book: &mut B, order: StandingOrder, reason: Reason, tape: &mut Tape)
    requires whole { can_take order.left (found order.number (B.orders book.old)) ≡ true }
    requires place { 0 < places tape.old }
    ensures after { B.orders book.new ≡ lower order.number order.left (B.orders book.old) }
    ensures room { B.capacity book.new ≡ B.capacity book.old }
    ensures records { Recorded tape.old tape.new (withdrawal reason (plain order) ∷ []) }
{
    book.take(order.number, order.left);
    tape.write(TapeRecord::Withdrawal {
        number: order.number,
        quantity: order.left,
        reason,
    });
}
