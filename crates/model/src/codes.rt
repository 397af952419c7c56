ghost use Rattle.std.specs.Prelude.{◌≡◌};
ghost use Rattle.model.specs.Numbers.{code, reason_code};
ghost use Rattle.model.specs.Decoding.{NamesRefusal, NamesReason};

use crate::types::{Reason, Refusal};

// A number that names no refusal, or no reason.
#[derive(Clone, Copy, Debug, PartialEq, Eq)]
pub struct UnknownNumber(pub u8);

impl From<Refusal> for u8 {
    ghost from_gives = { λ refusal number. number ≡ code refusal };

    fn from(refusal: Refusal) -> u8 {
        refusal as u8
    }
}

impl TryFrom<u8> for Refusal {
    type Error = UnknownNumber;

    ghost try_from_gives = { NamesRefusal };

    fn try_from(number: u8) -> Result<Refusal, UnknownNumber> {
        match number {
            1 => Ok(Refusal::SettingsOutOfRange),
            2 => Ok(Refusal::IndicativePrice),
            3 => Ok(Refusal::BookNotEmpty),
            4 => Ok(Refusal::WrongPhase),
            5 => Ok(Refusal::UnknownMember),
            6 => Ok(Refusal::Quantity),
            7 => Ok(Refusal::Price),
            8 => Ok(Refusal::ConditionOutsideTrading),
            9 => Ok(Refusal::NumbersExhausted),
            10 => Ok(Refusal::CapacityReached),
            11 => Ok(Refusal::TapeFull),
            12 => Ok(Refusal::UnknownOrder),
            13 => Ok(Refusal::ForeignCalledPrice),
            14 => Ok(Refusal::ScratchTooShort),
            15 => Ok(Refusal::AnswersTooShort),
            _ => Err(UnknownNumber(number)),
        }
    }
}

impl From<Reason> for u8 {
    ghost from_gives = { λ reason number. number ≡ reason_code reason };

    fn from(reason: Reason) -> u8 {
        reason as u8
    }
}

impl TryFrom<u8> for Reason {
    type Error = UnknownNumber;

    ghost try_from_gives = { NamesReason };

    fn try_from(number: u8) -> Result<Reason, UnknownNumber> {
        match number {
            1 => Ok(Reason::ByMember),
            2 => Ok(Reason::AfterAuction),
            3 => Ok(Reason::ConditionUnmet),
            4 => Ok(Reason::NothingOpposite),
            5 => Ok(Reason::AtClose),
            _ => Err(UnknownNumber(number)),
        }
    }
}
