ghost use Rattle.std.specs.Prelude.{◌≡◌, ◌≤◌, true, length};
ghost use Rattle.model.specs.Grid.{on_grid};
ghost use Rattle.model.specs.Auction.{trades_at, struck_orders, struck_records};
ghost use Rattle.tape.specs.Tapes.{room as places, Recorded};
ghost use Rattle.grid.specs.Views.{plain};
ghost use Rattle.striking.specs.Settled.{turned_last};

use crate::meetings::Meeting;
use crate::pairing::pair_orders;
use book::Book;
use grid::Settings;
use tape::Tape;
use withdrawing::withdraw_markets;

// Turns the orders that traded last into limit orders at the price, where they are market orders that still stand.
fn turn_last<B: Book>(book: &mut B, last: Option<Meeting>, price: u32)
    ensures after { B.orders book.new ≡ turned_last last price (B.orders book.old) }
    ensures room { B.capacity book.new ≡ B.capacity book.old }
{
    if let Some(met) = last {
        book.turn(met.buy.order.number, price);
        book.turn(met.sell.order.number, price);
    }
}

// Trades a volume at a called price, and withdraws the market orders that traded nothing.
// What is left of a market order that traded becomes a limit order at the price.
pub fn strike<B: Book>(book: &mut B, settings: &Settings, price: u32, volume: u64, tape: &mut Tape)
    requires grid { on_grid (plain settings.now) price ≡ true }
    requires places { length (struck_records (trades_at (plain settings.now) price volume (B.orders book.old)) (B.orders book.old)) ≤ places tape.old }
    ensures after { B.orders book.new ≡ struck_orders price (trades_at (plain settings.now) price volume (B.orders book.old)) (B.orders book.old) }
    ensures room { B.capacity book.new ≡ B.capacity book.old }
    ensures records { Recorded tape.old tape.new (struck_records (trades_at (plain settings.now) price volume (B.orders book.old)) (B.orders book.old)) }
{
    let last = pair_orders(book, settings, price, volume, tape);
    turn_last(book, last, price);
    withdraw_markets(book, tape);
}
