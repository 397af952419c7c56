// The curve of an auction as a page shows it.
#![tactic(auto)]

mod chart;

pub use chart::Chart;
