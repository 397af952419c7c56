ghost use Rattle.std.specs.Prelude.{◌≡◌, ◌-◌, if◌then◌else◌, Some, None};
ghost use Rattle.model.specs.declared.types.OrderPrice.TheVariants.{Limit};
ghost use Rattle.model.specs.Orders.{with_left, with_price};
ghost use Rattle.book.specs.Meaning.{can_take, can_turn};

use model::{MAX_PRICE, Order, OrderPrice};

// What becomes of an order of which an amount is taken, or nothing where the amount may not be taken.
pub fn after_take(order: Order, amount: u64) -> Option<Order>
    ensures { result ≡ (if can_take amount (Some order) then Some (with_left order (order.left - amount)) else None) }
{
    (1..=order.left)
        .contains(&amount)
        .then(|| lowered(order, amount))
}

// What becomes of a market order that is turned, or nothing where it may not be turned.
pub fn after_turn(order: Order, price: u32) -> Option<Order>
    ensures { result ≡ (if can_turn price (Some order) then Some (with_price order (Limit price)) else None) }
{
    (order.price.is_market() && (1..=MAX_PRICE).contains(&price)).then(|| limited(order, price))
}

// The row with so much less left, down to nothing.
pub fn lowered(row: Order, amount: u64) -> Order
    ensures { result ≡ with_left row (row.left - amount) }
{
    Order {
        left: row.left.saturating_sub(amount),
        ..row
    }
}

// The row with a limit price.
pub fn limited(row: Order, price: u32) -> Order
    ensures { result ≡ with_price row (Limit price) }
{
    Order {
        price: OrderPrice::Limit(price),
        ..row
    }
}
