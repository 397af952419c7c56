// A book in one lent slice, its orders in the order in which they came.
#![tactic(auto)]

mod arrival;
mod front;
mod ranks;

pub use arrival::ArrivalBook;
