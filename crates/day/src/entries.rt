use model::{Call, Condition, Entry, Order, OrderPrice, Side};

// An order as a call of a list. The test has words of its own, for one member: words for both would be public functions
// of a library, each with a contract. The fields of an entry stand one by one: these functions are there to make one.
pub(crate) fn order(
    member: u32,
    side: Side,
    price: OrderPrice,
    quantity: u64,
    condition: Condition,
) -> Call {
    Call::Enter(Entry {
        member,
        side,
        price,
        quantity,
        condition,
    })
}

pub(crate) fn buy(member: u32, limit: u32, quantity: u64) -> Call {
    conditional(member, Side::Buy, limit, quantity, Condition::Plain)
}

pub(crate) fn sell(member: u32, limit: u32, quantity: u64) -> Call {
    conditional(member, Side::Sell, limit, quantity, Condition::Plain)
}

pub(crate) fn market(member: u32, side: Side, quantity: u64) -> Call {
    order(member, side, OrderPrice::Market, quantity, Condition::Plain)
}

pub(crate) fn conditional(
    member: u32,
    side: Side,
    limit: u32,
    quantity: u64,
    condition: Condition,
) -> Call {
    order(member, side, OrderPrice::Limit(limit), quantity, condition)
}

// An order that stands whole, as it came. None with a condition stands.
pub(crate) fn entered(standing: Order) -> Call {
    let Order {
        member,
        side,
        price,
        left,
        ..
    } = standing;
    order(member, side, price, left, Condition::Plain)
}

pub(crate) fn withdrawal(member: u32, number: u64) -> Call {
    Call::Withdraw { member, number }
}
