use crate::entries::{buy, conditional, market, sell, withdrawal};
use model::{Call, Condition, Side};
use std::alloc::{AllocError, Global};

// Orders before the opening, among them one beyond the grid.
fn first_orders() -> [Call; 6] {
    [
        buy(7, 102, 40),
        sell(8, 99, 50),
        market(9, Side::Buy, 20),
        sell(7, 104, 30),
        buy(8, 130, 10),
        sell(9, 103, 25),
    ]
}

// Calls that are refused before the opening, and a withdrawal.
fn first_refusals() -> [Call; 8] {
    [
        buy(0, 100, 10),
        buy(7, 100, 0),
        buy(7, 100_000, 10),
        conditional(7, Side::Buy, 104, 10, Condition::FillOrKill),
        withdrawal(9, 1),
        Call::Auction,
        withdrawal(7, 4),
        withdrawal(7, 4),
    ]
}

// The random period, in which orders still come and none goes, and the opening auction.
fn first_auction() -> [Call; 5] {
    [
        Call::BeginRandom,
        withdrawal(7, 1),
        market(9, Side::Sell, 5),
        Call::BeginRandom,
        Call::Auction,
    ]
}

// Trading: fills in part and whole, conditions met and unmet, and a market order of which the rest stands at its last price.
fn trading() -> [Call; 7] {
    [
        buy(7, 103, 30),
        market(8, Side::Sell, 7),
        conditional(8, Side::Sell, 100, 3, Condition::FillOrKill),
        sell(9, 101, 10),
        market(9, Side::Buy, 15),
        conditional(7, Side::Sell, 100, 500, Condition::FillOrKill),
        conditional(8, Side::Sell, 101, 12, Condition::ImmediateOrCancel),
    ]
}

// Orders that find nothing, a withdrawal, and a table that is full.
fn quiet_trading() -> [Call; 10] {
    [
        conditional(9, Side::Buy, 140, 5, Condition::ImmediateOrCancel),
        market(8, Side::Buy, 7),
        buy(7, 95, 9),
        withdrawal(7, 17),
        sell(9, 108, 6),
        sell(8, 113, 20),
        sell(7, 118, 20),
        buy(7, 85, 1),
        buy(9, 86, 1),
        buy(8, 87, 1),
    ]
}

// A price beyond the static band interrupts trading, and orders may go again.
fn interruption() -> [Call; 5] {
    [
        buy(9, 120, 16),
        Call::Auction,
        withdrawal(7, 21),
        withdrawal(9, 22),
        sell(7, 110, 4),
    ]
}

// A second auction, and the close.
fn second_auction() -> [Call; 7] {
    [
        Call::BeginRandom,
        buy(8, 114, 12),
        Call::Auction,
        buy(7, 112, 3),
        Call::Close,
        buy(7, 100, 1),
        Call::Close,
    ]
}

// A day from its first order to the close.
pub(crate) fn day_calls(heap: Global) -> Result<Vec<Call>, AllocError> {
    let mut calls = Vec::new(heap);
    calls.extend_from_slice(&first_orders())?;
    calls.extend_from_slice(&first_refusals())?;
    calls.extend_from_slice(&first_auction())?;
    calls.extend_from_slice(&trading())?;
    calls.extend_from_slice(&quiet_trading())?;
    calls.extend_from_slice(&interruption())?;
    calls.extend_from_slice(&second_auction())?;
    Ok(calls)
}
