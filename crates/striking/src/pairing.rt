ghost use Rattle.std.specs.Prelude.{◌≡◌, ◌≤◌, length};
ghost use Rattle.model.specs.Auction.{trades_at, apply_trades};
ghost use Rattle.tape.specs.Tapes.{room as places, Recorded};
ghost use Rattle.grid.specs.Views.{plain};
ghost use Rattle.striking.specs.Meetings.{IsLast};

use crate::meetings::{Meeting, next_meeting, trade};
use book::Book;
use grid::Settings;
use tape::Tape;

// Trades a volume at a price between the parties of both sides in rank, and answers the last meeting, or none where nothing traded.
pub(crate) fn pair_orders<B: Book>(
    book: &mut B,
    settings: &Settings,
    price: u32,
    volume: u64,
    tape: &mut Tape,
) -> Option<Meeting>
    requires { length (trades_at (plain settings.now) price volume (B.orders book.old)) ≤ places tape.old }
    ensures last { IsLast (trades_at (plain settings.now) price volume (B.orders book.old)) result }
    ensures after { B.orders book.new ≡ apply_trades (trades_at (plain settings.now) price volume (B.orders book.old)) (B.orders book.old) }
    ensures room { B.capacity book.new ≡ B.capacity book.old }
    ensures records { Recorded tape.old tape.new (trades_at (plain settings.now) price volume (B.orders book.old)) }
{
    let mut remaining = volume;
    let mut last = None;
    // a walk, and no iterator: the book changes under it
    while let Some(met) = next_meeting(book, settings, price, remaining, last) {
        trade(book, price, met, tape);
        remaining -= met.quantity;
        last = Some(met);
    }
    last
}
