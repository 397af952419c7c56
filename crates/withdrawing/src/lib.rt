// Withdrawals by number over any book, each with its tape record.
#![tactic(auto)]

mod choices;
mod counting;
mod withdrawals;

pub use counting::count_markets;
pub use withdrawals::{withdraw_all, withdraw_markets, withdraw_one};
