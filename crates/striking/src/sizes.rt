ghost use Rattle.std.specs.Prelude.{◌≡◌, ℕ, ◌+◌, ◌^◌, ◌<◌, ◌≤◌, length, filter};
ghost use Rattle.model.specs.Auction.{trades_at, idle as is_idle};
ghost use Rattle.book.specs.Meaning.{max_capacity};
ghost use Rattle.book.specs.Plain.{plain as plain_order};
ghost use Rattle.grid.specs.Views.{plain};
ghost use Rattle.striking.specs.Counts.{advanced, start, one_more, Counts, NextCount};

use crate::parties::first_party;
use book::Book;
use grid::Settings;
use model::Side;
use walking::Placed;
use withdrawing::count_markets;

// How many records a strike writes: its trades, and the withdrawals of market orders that trade nothing.
#[derive(Clone, Copy, Debug, PartialEq, Eq)]
pub struct StrikeSize {
    pub trades: usize,
    pub idle: usize,
}

// How far a count has come on a side: a place in rank, how much of the first party from there on is spent, and how many market orders trade.
#[derive(Clone, Copy, Default)]
pub(crate) struct Progress {
    pub(crate) place: usize,
    pub(crate) spent: u64,
    pub(crate) markets: usize,
}

impl Progress {
    // A side after a trade of its first party, which counts once where it is a market order.
    fn advance(self, first: Placed, quantity: u64) -> Progress
        requires place { first.place < max_capacity }
        requires few { self.markets ≤ max_capacity }
        requires limited { self.spent + quantity ≤ first.order.left }
        ensures { result ≡ advanced self first.place (plain_order first.order) quantity }
    {
        let markets = if self.spent == 0 && first.order.price.is_market() {
            self.markets + 1
        } else {
            self.markets
        };
        if self.spent + quantity == first.order.left {
            Progress {
                place: first.place + 1,
                spent: 0,
                markets,
            }
        } else {
            Progress {
                place: first.place,
                spent: self.spent + quantity,
                markets,
            }
        }
    }
}

// The trades that are counted, the volume that remains, and both sides: a field for each, since a trade counts on both.
#[derive(Clone, Copy)]
pub(crate) struct Tally {
    pub(crate) trades: usize,
    pub(crate) remaining: u64,
    pub(crate) buys: Progress,
    pub(crate) sells: Progress,
}

impl Tally {
    // A count of no trade of a volume.
    fn new(volume: u64) -> Tally
        ensures { result ≡ start volume }
    {
        Tally {
            trades: 0,
            remaining: volume,
            buys: Progress::default(),
            sells: Progress::default(),
        }
    }

    // A count after a trade of a buy and a sell, of which something is left.
    fn count(self, buy: Placed, sell: Placed) -> Tally
        requires places { (buy.place < max_capacity) × (sell.place < max_capacity) }
        requires few { (self.buys.markets ≤ max_capacity) × (self.sells.markets ≤ max_capacity) }
        requires some { (self.buys.spent < buy.order.left) × (self.sells.spent < sell.order.left) }
        requires trades { self.trades + 1 < 2 ^ 64 }
        ensures { result ≡ one_more self buy.place (plain_order buy.order) sell.place (plain_order sell.order) }
    {
        let buy_left = buy.order.left - self.buys.spent;
        let sell_left = sell.order.left - self.sells.spent;
        let quantity = buy_left.min(sell_left).min(self.remaining);
        Tally {
            trades: self.trades + 1,
            remaining: self.remaining - quantity,
            buys: self.buys.advance(buy, quantity),
            sells: self.sells.advance(sell, quantity),
        }
    }

    // The size of a strike, once all its trades are counted, from how many market orders stand.
    fn size(self, markets: usize) -> StrikeSize
        requires { self.buys.markets + self.sells.markets ≤ markets }
        ensures trades { result.trades ≡ self.trades }
        ensures idle { result.idle + (self.buys.markets + self.sells.markets) ≡ markets }
    {
        StrikeSize {
            trades: self.trades,
            idle: markets - self.buys.markets - self.sells.markets,
        }
    }
}

// How many trades a strike makes, and how many market orders trade nothing in it.
// Price and volume are two parameters, here and below: the one stays, and the other falls with each trade.
pub fn strike_size<B: Book>(book: &B, settings: &Settings, price: u32, volume: u64) -> StrikeSize
    ensures trades { result.trades ≡ length (trades_at (plain settings.now) price volume (B.orders book.now)) }
    ensures idle { result.idle ≡ length (filter (is_idle (trades_at (plain settings.now) price volume (B.orders book.now))) (B.orders book.now)) }
{
    let mut tally = Tally::new(volume);
    // a walk, and no `successors`: its last is an option, and here there is always one
    while let Some(next) = count_next(book, settings, price, tally) {
        tally = next;
    }
    tally.size(count_markets(book))
}

// Counts the next trade, or none where every trade is counted.
fn count_next<B: Book>(book: &B, settings: &Settings, price: u32, tally: Tally) -> Option<Tally>
    requires { (v : ℕ) × (v < 2 ^ 64) × Counts (plain settings.now) price v (B.orders book.now) tally }
    ensures { NextCount (plain settings.now) price (B.orders book.now) tally result }
{
    if tally.remaining == 0 {
        return None;
    }
    let buy = first_party(book, settings, Side::Buy, price, tally.buys.place)?;
    let sell = first_party(book, settings, Side::Sell, price, tally.sells.place)?;
    Some(tally.count(buy, sell))
}
