// A whole day on plain numbers in the layout of C.
#![tactic(auto)]

mod days;
mod memory;
mod raw;
mod turning;

pub use days::cross_day;
pub use raw::{RawAnswer, RawCall, RawEnd, RawOrder, RawPoint, RawRecord};
