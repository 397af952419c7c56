ghost use Rattle.std.specs.Prelude.{◌≡◌, length, filter};
ghost use Rattle.model.specs.Rank.{ranked};
ghost use Rattle.model.specs.Calls.{is_market_order};
ghost use Rattle.book.specs.Plain.{as_plain};
ghost use Rattle.withdrawing.specs.Markets.{market_found};

use book::{Book, StandingOrder};
use model::Side;

// How many market orders stand.
pub fn count_markets<B: Book>(book: &B) -> usize
    ensures { result ≡ length (filter is_market_order (B.orders book.now)) }
{
    let buys = markets_on(book, Side::Buy);
    let sells = markets_on(book, Side::Sell);
    buys + sells
}

// How many market orders stand on a side, where they rank first.
fn markets_on<B: Book>(book: &B, side: Side) -> usize
    ensures { result ≡ length (filter is_market_order (ranked side (B.orders book.now))) }
{
    let (count, _) = book.count();
    (0..count)
        .position(|n| !is_market_order(book.nth(side, n + 1)))
        .unwrap_or(count)
}

// Whether there is an order, and it is a market order.
fn is_market_order(order: Option<StandingOrder>) -> bool
    ensures { result ≡ market_found (as_plain order) }
{
    order.is_some_and(|order| order.price.is_market())
}
