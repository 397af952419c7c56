ghost use Rattle.std.specs.Prelude.{◌≤◌};
ghost use Rattle.model.specs.Trading.{limit};
ghost use Rattle.book.specs.Bounds.{floor};

use model::{OrderPrice, Side};

// An order as a book holds it. One with contents out of bounds cannot exist; one with nothing left can, and no book adds it.
// The fields of an order again, and no order within: readers name them, and would name one step more each time.
#[derive(Clone, Copy, Debug, PartialEq, Eq)]
pub struct StandingOrder {
    pub number: u64,
    pub member: u32,
    pub side: Side,
    pub price: OrderPrice,
    pub left: u64,
    ghost number_low: { 1 ≤ number },
    ghost number_high: { number ≤ 999999999 },
    ghost member_low: { 1 ≤ member },
    ghost member_high: { member ≤ 999 },
    ghost price_low: { 1 ≤ floor price },
    ghost price_high: { limit price ≤ 99999 },
    ghost left_high: { left ≤ 1000000000 },
}
