// A market's desk over any book and any rule: a called price that is shown before its strike, and a whole day from a list.
#![tactic(auto)]

mod days;
mod ends;
mod quotes;
mod shown;

pub use days::trade_day;
pub use ends::DayEnd;
pub use quotes::Quote;
pub use shown::{call_shown, strike_shown};
