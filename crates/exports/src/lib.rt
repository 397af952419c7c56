// The engine for callers in C and Rust, under names of C.
#![tactic(auto)]

mod days;

pub use days::{nogdrut_day, nogdrut_noop};
