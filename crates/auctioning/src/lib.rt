// The call for a price and its strike, over any book and any price rule.
#![tactic(auto)]

mod calls;
mod days;
mod prices;
mod strikes;

pub use calls::call;
pub use strikes::strike_called;
