// An order that is entered: its questions, and what becomes of it.
#![tactic(auto)]

mod carrying;
mod courses;
mod deciding;
mod entries;
mod planning;
mod questions;

pub use entries::enter;
