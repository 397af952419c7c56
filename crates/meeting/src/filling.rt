ghost use Rattle.std.specs.Prelude.{◌≡◌, ◌≤◌, map, length};
ghost use Rattle.model.specs.Trading.{after_fills, trade_of};
ghost use Rattle.tape.specs.Tapes.{room, Recorded};
ghost use Rattle.book.specs.Plain.{plain};
ghost use Rattle.grid.specs.Views.{plain as plain_settings};
ghost use Rattle.meeting.specs.Plans.{meeting_of};
ghost use Rattle.meeting.specs.Fills.{fill_at};

use crate::limits::limit;
use crate::next::{Next, next_met};
use book::{Book, StandingOrder};
use grid::Settings;
use model::{Entry, Side, TapeRecord};
use tape::Tape;
use walking::Placed;

// The record of a trade of an order under its number with a standing one, at the standing order's price.
fn trade(entry: Entry, number: u64, o: StandingOrder, quantity: u64) -> TapeRecord
    ensures { result ≡ trade_of entry.side number (fill_at (plain o) quantity) }
{
    let (buy, sell) = match entry.side {
        Side::Buy => (number, o.number),
        Side::Sell => (o.number, number),
    };
    TapeRecord::Trade {
        buy,
        sell,
        price: limit(o.price),
        quantity,
    }
}

// Carries out the fills of an order that its plan counted, and writes their trades.
pub fn carry_out<B: Book>(
    book: &mut B,
    settings: &Settings,
    reference: u32,
    entry: Entry,
    number: u64,
    tape: &mut Tape,
)
    requires { length (meeting_of (plain_settings settings.now) reference entry.side entry.price entry.quantity (B.orders book.old)).fills ≤ room tape.old }
    ensures orders { B.orders book.new ≡ after_fills (meeting_of (plain_settings settings.now) reference entry.side entry.price entry.quantity (B.orders book.old)).fills (B.orders book.old) }
    ensures capacity { B.capacity book.new ≡ B.capacity book.old }
    ensures tape { Recorded tape.old tape.new (map (trade_of entry.side number) (meeting_of (plain_settings settings.now) reference entry.side entry.price entry.quantity (B.orders book.old)).fills) }
{
    let mut remaining = entry.quantity;
    let mut from = 0;
    // a while let, and no iterator: each fill changes the book that the walk is in
    'fills: while let Next::Trade(Placed { place, order }) = next_met(
        book, settings, reference, entry, remaining, from,
    ) {
        let quantity = remaining.min(order.left);
        tape.write(trade(entry, number, order, quantity));
        book.take(order.number, quantity);
        remaining -= quantity;
        // What follows that order in rank comes to its place.
        from = place;
    }
}
