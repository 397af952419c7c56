// A member's withdrawal and the close: their questions, and what they withdraw.
#![tactic(auto)]

mod calls;

pub use calls::{close, withdraw};
