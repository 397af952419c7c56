ghost use Rattle.std.specs.Prelude.{◌≡◌, ◌<◌, length};
ghost use Rattle.model.specs.Calls.{scratch_after, call as call_outcome, strike as strike_outcome};
ghost use Rattle.model.specs.Views.{Came, done_or_refused};
ghost use Rattle.session.specs.Tokens.{Told, Spent};
ghost use Rattle.session.specs.Views.{state};
ghost use Rattle.desk.specs.Quotes.{board_after, quantity_of, StruckAt};

use crate::quotes::Quote;
use book::Book;
use model::{Point, Refusal, TapeRecord};
use pricing::PriceRule;
use session::{CalledPrice, Session};

// Calls a price and shows it on the board before it is struck. It may be read again and again, and is handed on to be struck or put back.
// A call without a price leaves nothing to spend.
pub fn call_shown<B: Book, R: PriceRule>(
    session: &mut Session<B, R>,
    board: &mut Quote,
    tape: &mut [TapeRecord],
    scratch: &mut [Point],
) -> Result<Option<CalledPrice>, Refusal>
    ensures came { Came (call_outcome (R.rule session.old.rule.below) (state B.orders B.capacity session.old) (length tape.old) (length scratch.old)) (done_or_refused result) (state B.orders B.capacity session.new) tape.old session.old.day.used tape.new }
    ensures board { board.new ≡ board_after board.old result }
    ensures scratch { scratch.new ≡ scratch_after (state B.orders B.capacity session.old) scratch.old }
    ensures token { Told (R.rule session.old.rule.below) (state B.orders B.capacity session.old) (state B.orders B.capacity session.new) result }
    ensures rule { session.new.rule ≡ session.old.rule }
{
    let Some(called) = session.call(tape, scratch)? else {
        return Ok(None);
    };
    *board = Quote::from(&called);
    Ok(Some(called))
}

// Strikes a called price once, and answers the price with the quantity that was traded.
pub fn strike_shown<B: Book, R: PriceRule>(
    session: &mut Session<B, R>,
    called: &mut CalledPrice,
    tape: &mut [TapeRecord],
) -> Result<Quote, Refusal>
    requires live { 0 < called.old.quantity }
    ensures came { Came (strike_outcome (state B.orders B.capacity session.old) (length tape.old) called.old.price called.old.quantity) (quantity_of result) (state B.orders B.capacity session.new) tape.old session.old.day.used tape.new }
    ensures price { StruckAt called.old.price result }
    ensures token { Spent called.old called.new (quantity_of result) }
    ensures kept { called.new.price ≡ called.old.price }
    ensures rule { session.new.rule ≡ session.old.rule }
{
    let price = called.price();
    let quantity = session.strike(called, tape)?;
    Ok(Quote { price, quantity })
}
