// A book in one lent slice: the buys in rank from its front, the sells in rank from its back.
#![tactic(auto)]

mod moving;
mod operations;
mod orders;
mod position;
mod queues;
mod searching;
mod sides;
mod table;

pub use table::RankedBook;
