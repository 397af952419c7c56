ghost use Rattle.std.specs.Prelude.{◌≡◌, Some, codes};
ghost use Rattle.book.specs.Bounds.{in_bounds, price_in_bounds};
ghost use Rattle.book.specs.Plain.{plain};
ghost use Rattle.book.specs.Making.{Admitted};

use crate::standing::StandingOrder;
use model::{MAX_MEMBER, MAX_NUMBER, MAX_PRICE, MAX_QUANTITY, Order, OrderPrice};
use std::error::Error;
use std::fmt;

// Some content of an order is out of bounds.
#[derive(Clone, Copy, Debug, PartialEq, Eq)]
pub struct OutOfBounds;

impl fmt::Display for OutOfBounds {
    ghost output = { λ _. Some (codes "an order out of bounds") };

    fn fmt<W: fmt::Write>(&self, f: &mut fmt::Formatter<W>) -> fmt::Result {
        f.write_str("an order out of bounds")
    }
}

impl Error for OutOfBounds {}

// A standing order of these contents, where all of them are in bounds.
impl TryFrom<Order> for StandingOrder {
    type Error = OutOfBounds;

    ghost try_from_gives = { Admitted };

    fn try_from(order: Order) -> Result<StandingOrder, OutOfBounds> {
        if !in_bounds(order) {
            return Err(OutOfBounds);
        }
        Ok(StandingOrder {
            number: order.number,
            member: order.member,
            side: order.side,
            price: order.price,
            left: order.left,
        })
    }
}

// Whether number, member, price and what is left are within their limits.
fn in_bounds(order: Order) -> bool
    ensures { result ≡ in_bounds order }
{
    (1..=MAX_NUMBER).contains(&order.number)
        && (1..=MAX_MEMBER).contains(&order.member)
        && price_in_bounds(order.price)
        && order.left <= MAX_QUANTITY
}

// A limit price is from 1 to the highest price.
fn price_in_bounds(price: OrderPrice) -> bool
    ensures { result ≡ price_in_bounds price }
{
    match price {
        OrderPrice::Market => true,
        OrderPrice::Limit(limit) => (1..=MAX_PRICE).contains(&limit),
    }
}

// The contents of a standing order, as a plain order.
impl From<StandingOrder> for Order {
    ghost from_gives = { λ standing order. order ≡ plain standing };

    fn from(standing: StandingOrder) -> Order {
        Order {
            number: standing.number,
            member: standing.member,
            side: standing.side,
            price: standing.price,
            left: standing.left,
        }
    }
}
