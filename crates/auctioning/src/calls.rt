ghost use Rattle.std.specs.Prelude.{◌≡◌, true, length, None};
ghost use Rattle.model.specs.Grid.{Settings as PlainSettings};
ghost use Rattle.model.specs.State.{is_random};
ghost use Rattle.model.specs.Calls.{call_result, scratch_after, call as call_outcome};
ghost use Rattle.model.specs.Views.{view, Came, done_or_refused};
ghost use Rattle.grid.specs.Views.{plain};
ghost use Rattle.auctioning.specs.Results.{Priced};

use crate::days::{begin_trading, call_point};
use crate::prices::find_price;
use book::Book;
use grid::Settings;
use model::{DayState, Point, Refusal, TapeRecord};
use pricing::{MostTraded, PriceRule};
use tape::Tape;
use withdrawing::{count_markets, withdraw_markets};

// Calls the price that the rule finds, which then waits for its strike, and answers its point.
// Where nothing trades at any grid price, withdraws the market orders and begins trading.
// The scratch holds the curve after it, unless it is too short.
// Book, settings, day, tape and scratch are parameters, here and below, and no struct: to find the price takes book, settings
// and scratch, and what follows from it book, day and tape, so a struct of all would be taken apart at once.
pub fn call<B: Book, R: PriceRule>(
    book: &mut B,
    rule: &MostTraded<R>,
    settings: &Settings,
    day: &mut DayState,
    tape: &mut [TapeRecord],
    scratch: &mut [Point],
) -> Result<Option<Point>, Refusal>
    requires { is_random day.old.phase ≡ true }
    ensures came { Came (call_outcome (R.rule rule.now.below) (view (plain settings.now) day.old (B.orders book.old) (B.capacity book.old)) (length tape.old) (length scratch.old)) (done_or_refused result) (view (plain settings.now) day.new (B.orders book.new) (B.capacity book.new)) tape.old day.old.used tape.new }
    ensures scratch { scratch.new ≡ scratch_after (view (plain settings.now) day.old (B.orders book.old) (B.capacity book.old)) scratch.old }
    ensures price { Priced (R.rule rule.now.below) (plain settings.now) (B.orders book.old) result }
    ensures room { B.capacity book.new ≡ B.capacity book.old }
{
    let found = find_price(book, rule, settings, scratch)?;
    conclude(book, day, tape, found)?;
    Ok(found)
}

// Calls the price that was found, or begins trading without one.
fn conclude<B: Book>(
    book: &mut B,
    day: &mut DayState,
    tape: &mut [TapeRecord],
    found: Option<Point>,
) -> Result<(), Refusal>
    ensures came { (g : PlainSettings) → Came (call_result (view g day.old (B.orders book.old) (B.capacity book.old)) (length tape.old) found) (done_or_refused result) (view g day.new (B.orders book.new) (B.capacity book.new)) tape.old day.old.used tape.new }
    ensures room { B.capacity book.new ≡ B.capacity book.old }
{
    match found {
        Some(point) => {
            call_point(day, point);
            Ok(())
        }
        None => begin_unpriced(book, day, tape),
    }
}

// Withdraws the market orders and begins trading, without a price.
fn begin_unpriced<B: Book>(
    book: &mut B,
    day: &mut DayState,
    tape: &mut [TapeRecord],
) -> Result<(), Refusal>
    ensures came { (g : PlainSettings) → Came (call_result (view g day.old (B.orders book.old) (B.capacity book.old)) (length tape.old) None) (done_or_refused result) (view g day.new (B.orders book.new) (B.capacity book.new)) tape.old day.old.used tape.new }
    ensures room { B.capacity book.new ≡ B.capacity book.old }
{
    day.ask_room(count_markets(book), tape.len())?;
    let mut out = Tape::new(tape, day.used);
    withdraw_markets(book, &mut out);
    begin_trading(day, day.reference, out.next);
    Ok(())
}
