// The vocabulary of a session, its definition and its laws.
#![tactic(auto)]

mod answers;
mod blanks;
mod codes;
mod days;
mod laws;
mod limits;
mod orders;
mod outcomes;
mod points;
mod sides;
mod types;
mod words;

pub use codes::UnknownNumber;
pub use laws::laws_hold;
pub use limits::{MAX_BAND, MAX_MEMBER, MAX_NUMBER, MAX_PLACES, MAX_PRICE, MAX_QUANTITY, MAX_TICK};
pub use outcomes::known_outcomes_hold;
pub use types::{
    Answer, Call, Condition, DayState, Entry, Order, OrderPrice, Phase, Point, Reason, Refusal,
    Side, TapeRecord,
};
