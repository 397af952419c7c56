// The strike of an auction, over any book.
#![tactic(auto)]

mod meetings;
mod pairing;
mod parties;
mod sizes;
mod strikes;

pub use sizes::{StrikeSize, strike_size};
pub use strikes::strike;
