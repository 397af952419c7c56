// What the programs show: the terms of a market, some small books, and the names of the rules.
#![tactic(auto)]

use grid::Terms;
use model::OrderPrice::{Limit, Market};
use model::{Order, Side};

// A tick of 1, an indicative price of 100, an absolute band of 20 and a static band of 10 percent.
pub const TERMS: Terms = Terms {
    tick: 1,
    indicative: 100,
    absolute: 20,
    static_band: 10,
    last_number: 0,
};

// A first listing: the same without an indicative price, and what the programs call it.
pub const UNLISTED: Terms = Terms {
    indicative: 0,
    ..TERMS
};

pub const FIRST_LISTING: &str = "A first listing without an indicative price";

// What the programs call the two rules.
pub const BY_NEAREST: &str = "nearest to the indicative price";

pub const BY_BALANCED: &str = "least surplus, then the middle";

// Some orders, numbered as they come, and what they are there to show.
// Orders and no entries: `day` makes each call of an order, while `opening` would need memory to make a slice of orders.
// No `==` and no `Debug`: the programs take its fields.
#[derive(Clone, Copy)]
pub struct Sample {
    pub title: &'static str,
    pub orders: &'static [Order],
}

// An order of the member that buys, and of the other one: macros, since a constant calls no function.
macro_rules! buy {
    ($number:literal, $price:expr, $quantity:literal) => {
        Order {
            number: $number,
            member: 7,
            side: Side::Buy,
            price: $price,
            left: $quantity,
        }
    };
}

macro_rules! sell {
    ($number:literal, $price:expr, $quantity:literal) => {
        Order {
            member: 8,
            side: Side::Sell,
            ..buy!($number, $price, $quantity)
        }
    };
}

pub const BOOKS: [Sample; 8] = [
    Sample {
        title: "As much bid as offered",
        orders: &[buy!(1, Limit(106), 50), sell!(2, Limit(98), 50)],
    },
    Sample {
        title: "As much bid as offered, an odd middle",
        orders: &[buy!(1, Limit(103), 50), sell!(2, Limit(98), 50)],
    },
    Sample {
        title: "More bid than offered",
        orders: &[buy!(1, Limit(105), 80), sell!(2, Limit(98), 50)],
    },
    Sample {
        title: "More offered than bid",
        orders: &[buy!(1, Limit(105), 50), sell!(2, Limit(98), 80)],
    },
    Sample {
        title: "Market orders only",
        orders: &[buy!(1, Market, 30), sell!(2, Market, 20)],
    },
    Sample {
        title: "A buy above the grid, which is inactive",
        orders: &[buy!(1, Limit(121), 10), sell!(2, Limit(90), 10)],
    },
    Sample {
        title: "Several buys for one sell",
        orders: &[
            buy!(1, Limit(102), 10),
            buy!(2, Market, 10),
            buy!(3, Limit(103), 10),
            sell!(4, Limit(100), 25),
        ],
    },
    Sample {
        title: "No orders",
        orders: &[],
    },
];
