// The plain rows that a table of orders is kept in: which of two comes first, and what becomes of one.
#![tactic(auto)]

mod orders;
mod ranks;

pub use orders::{after_take, after_turn, limited, lowered};
pub use ranks::comes_before;
