// What a program chooses as it runs, each behind one type: the table of a book, and the rule of its prices.
#![tactic(auto)]

mod books;
mod rules;
mod table;

pub use rules::Rule;
pub use table::{Table, TableBook};
