use crate::types::{Answer, Order, OrderPrice, Point, Reason, Side, TapeRecord};

// Constants, and no Default: they fill memory before it is used, and a default would offer them as values.
// A blank order, point or record is none that a session makes, and a blank answer reads as that of a call that was done.

impl Order {
    // What a row of a table may hold before an order stands there.
    pub const BLANK: Order = Order {
        number: 0,
        member: 0,
        side: Side::Buy,
        price: OrderPrice::Market,
        left: 0,
    };
}

impl Point {
    // What a place of the scratch may hold before a curve is written there.
    pub const BLANK: Point = Point {
        price: 0,
        demand: 0,
        supply: 0,
    };
}

impl TapeRecord {
    // What a place of the tape may hold before it is used.
    pub const BLANK: TapeRecord = TapeRecord::Withdrawal {
        number: 0,
        quantity: 0,
        reason: Reason::AtClose,
    };
}

impl Answer {
    // What a place for an answer may hold before a list is run.
    pub const BLANK: Answer = Answer {
        refusal: 0,
        answer: 0,
    };
}
