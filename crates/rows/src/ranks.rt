ghost use Rattle.std.specs.Prelude.{◌≡◌};
ghost use Rattle.model.specs.Rank.{better, before};

use model::{Order, OrderPrice, Side};

// Whether one of two rows of a side ranks before the other.
// By side, and no Ord: buys and sells rank their prices in opposite ways.
pub fn comes_before(side: Side, a: Order, b: Order) -> bool
    ensures { result ≡ before side a b }
{
    let earlier = a.number < b.number;
    match (a.price, b.price) {
        (OrderPrice::Market, OrderPrice::Market) => earlier,
        (OrderPrice::Market, OrderPrice::Limit(_)) => true,
        (OrderPrice::Limit(_), OrderPrice::Market) => false,
        (OrderPrice::Limit(p), OrderPrice::Limit(q)) => is_better(side, p, q)
            || (p == q && earlier),
    }
}

// The better of two limit prices.
fn is_better(side: Side, p: u32, q: u32) -> bool
    ensures { result ≡ better side p q }
{
    match side {
        Side::Buy => q < p,
        Side::Sell => p < q,
    }
}
