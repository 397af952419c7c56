// A tape that records are written to, one after another from a place on.
#![tactic(auto)]

mod tapes;
mod writing;

pub use tapes::Tape;
