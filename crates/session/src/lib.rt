// The session of one security's day: every call, the called price as a token, and the list.
#![tactic(auto)]

mod called;
mod calls;
mod entries;
mod lists;
mod making;
mod readings;
mod session;
mod steps;

pub use called::CalledPrice;
pub use lists::run;
pub use session::Session;
