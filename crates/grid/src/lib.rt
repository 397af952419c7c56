// Settings that keep their bounds, and the grid of prices that they give.
#![tactic(auto)]

mod bands;
mod making;
mod prices;
mod settings;
mod terms;

pub use bands::within;
pub use settings::Settings;
pub use terms::Terms;
