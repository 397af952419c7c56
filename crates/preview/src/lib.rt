// The curve and the opening price of a slice of orders, with no book behind it.
#![tactic(auto)]

mod curve;
mod faults;
mod opening;
mod volumes;
mod words;

pub use curve::write_curve;
pub use faults::Fault;
pub use opening::opening_price;
