ghost use Rattle.std.specs.Prelude.{Some};
ghost use Rattle.model.specs.Words.{phase_words, reason_words, refusal_words, unknown_words};

use crate::codes::UnknownNumber;
use crate::types::{Phase, Reason, Refusal};
use std::error::Error;
use std::fmt;

impl fmt::Display for Refusal {
    ghost output = { λ refusal. Some (refusal_words refusal) };

    fn fmt<W: fmt::Write>(&self, f: &mut fmt::Formatter<W>) -> fmt::Result {
        f.write_str(match self {
            Refusal::SettingsOutOfRange => "settings out of range",
            Refusal::IndicativePrice => "no lawful indicative price",
            Refusal::BookNotEmpty => "the book is not empty",
            Refusal::WrongPhase => "not in this phase",
            Refusal::UnknownMember => "no such member",
            Refusal::Quantity => "quantity out of range",
            Refusal::Price => "price out of range or off the tick",
            Refusal::ConditionOutsideTrading => "a condition outside trading",
            Refusal::NumbersExhausted => "no order number is left",
            Refusal::CapacityReached => "the book is full",
            Refusal::TapeFull => "the tape is full",
            Refusal::UnknownOrder => "no such order of this member",
            Refusal::ForeignCalledPrice => "not the called price",
            Refusal::ScratchTooShort => "the scratch is too short",
            Refusal::AnswersTooShort => "too few places for answers",
        })
    }
}

impl Error for Refusal {}

impl fmt::Display for Reason {
    ghost output = { λ reason. Some (reason_words reason) };

    fn fmt<W: fmt::Write>(&self, f: &mut fmt::Formatter<W>) -> fmt::Result {
        f.write_str(match self {
            Reason::ByMember => "by its member",
            Reason::AfterAuction => "after the auction",
            Reason::ConditionUnmet => "condition unmet",
            Reason::NothingOpposite => "nothing opposite",
            Reason::AtClose => "at the close",
        })
    }
}

impl fmt::Display for Phase {
    ghost output = { λ phase. Some (phase_words phase) };

    fn fmt<W: fmt::Write>(&self, f: &mut fmt::Formatter<W>) -> fmt::Result {
        f.write_str(match self {
            Phase::PreOpening => "pre-opening",
            Phase::Random => "random period",
            Phase::Called { .. } => "called",
            Phase::Trading => "trading",
            Phase::Closed => "closed",
        })
    }
}

impl fmt::Display for UnknownNumber {
    ghost output = { λ unknown. Some (unknown_words unknown) };

    fn fmt<W: fmt::Write>(&self, f: &mut fmt::Formatter<W>) -> fmt::Result {
        write!(f, "no meaning for the number {}", self.0)
    }
}

impl Error for UnknownNumber {}
