// What a book means: the standing orders by number, a capacity, and the operations on them.
#![tactic(auto)]

mod making;
mod meaning;
mod nearer;
mod standing;

pub use making::OutOfBounds;
pub use meaning::{Book, MAX_CAPACITY};
pub use standing::StandingOrder;
