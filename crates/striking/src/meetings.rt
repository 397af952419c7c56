ghost use Rattle.std.specs.Prelude.{◌≡◌, ◌<◌, true, [], ◌∷◌};
ghost use Rattle.model.specs.declared.types.Side.TheVariants.{Buy, Sell};
ghost use Rattle.model.specs.Orders.{find, lower};
ghost use Rattle.model.specs.Auction.{apply_trade};
ghost use Rattle.tape.specs.Tapes.{room as places, Recorded};
ghost use Rattle.book.specs.Meaning.{can_take};
ghost use Rattle.grid.specs.Views.{plain};
ghost use Rattle.striking.specs.Parties.{Passed};
ghost use Rattle.striking.specs.Meetings.{trade_record, reached, NextMeeting};

use crate::parties::first_party;
use book::Book;
use grid::Settings;
use model::{Side, TapeRecord};
use tape::Tape;
use walking::Placed;

// A buy and a sell that meet, and the quantity that they trade.
// A field for each side, and no table over sides: a trade has one of both.
#[derive(Clone, Copy)]
pub(crate) struct Meeting {
    pub(crate) buy: Placed,
    pub(crate) sell: Placed,
    pub(crate) quantity: u64,
}

// The place from which a side is walked on after the last meeting, or its first place.
fn reached(side: Side, last: Option<Meeting>) -> usize
    ensures { result ≡ reached side last }
{
    last.map_or(0, |met| match side {
        Side::Buy => met.buy.place,
        Side::Sell => met.sell.place,
    })
}

// The first parties of both sides meet, or none where nothing more trades. No active order stands before the places of the last meeting.
pub(crate) fn next_meeting<B: Book>(
    book: &B,
    settings: &Settings,
    price: u32,
    volume: u64,
    last: Option<Meeting>,
) -> Option<Meeting>
    requires buys { Passed (plain settings.now) Buy (B.orders book.now) (reached Buy last) }
    requires sells { Passed (plain settings.now) Sell (B.orders book.now) (reached Sell last) }
    ensures { NextMeeting (plain settings.now) price volume (B.orders book.now) result }
{
    if volume == 0 {
        return None;
    }
    let buy = first_party(book, settings, Side::Buy, price, reached(Side::Buy, last))?;
    let sell = first_party(book, settings, Side::Sell, price, reached(Side::Sell, last))?;
    let quantity = buy.order.left.min(sell.order.left).min(volume);
    Some(Meeting {
        buy,
        sell,
        quantity,
    })
}

// Carries a meeting out, and writes its trade.
pub(crate) fn trade<B: Book>(book: &mut B, price: u32, met: Meeting, tape: &mut Tape)
    requires buy { can_take met.quantity (find met.buy.order.number (B.orders book.old)) ≡ true }
    requires sell { can_take met.quantity (find met.sell.order.number (lower met.buy.order.number met.quantity (B.orders book.old))) ≡ true }
    requires place { 0 < places tape.old }
    ensures after { B.orders book.new ≡ apply_trade (trade_record price met) (B.orders book.old) }
    ensures room { B.capacity book.new ≡ B.capacity book.old }
    ensures record { Recorded tape.old tape.new (trade_record price met ∷ []) }
{
    book.take(met.buy.order.number, met.quantity);
    book.take(met.sell.order.number, met.quantity);
    tape.write(TapeRecord::Trade {
        buy: met.buy.order.number,
        sell: met.sell.order.number,
        price,
        quantity: met.quantity,
    });
}
