// Price rules under their two laws, and the one choice of the called price.
#![tactic(auto)]

mod auctions;
mod bottom;
mod choice;
mod layers;
mod rule;
#[cfg(test)]
mod tests;

pub use auctions::auction_price;
pub use bottom::{Middle, Nearest};
pub use choice::{BestEnds, best_ends, called_price, nearest_level};
pub use layers::{BALANCED, LeastSurplus, MostTraded};
pub use rule::PriceRule;
