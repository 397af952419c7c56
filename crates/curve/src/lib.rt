// The demand and the supply at grid prices, over any book.
#![tactic(auto)]

mod curves;
mod marks;
mod points;
mod prices;
mod reaching;
mod runs;

pub use curves::write_curve;
pub use runs::write_run;
