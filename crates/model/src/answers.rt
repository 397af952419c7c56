ghost use Rattle.std.specs.Prelude.{◌≡◌};
ghost use Rattle.model.specs.Views.{shown};
ghost use Rattle.model.specs.Decoding.{Shows};

use crate::codes::UnknownNumber;
use crate::types::{Answer, Refusal};

// What a call of a list gives is written as a refusal's number and an answer, 0 where there is none.
impl From<Result<u64, Refusal>> for Answer {
    ghost from_gives = { λ outcome answer. answer ≡ shown outcome };

    fn from(outcome: Result<u64, Refusal>) -> Answer {
        match outcome {
            Ok(answer) => Answer { refusal: 0, answer },
            Err(why) => Answer {
                refusal: u8::from(why),
                answer: 0,
            },
        }
    }
}

// The result of an answer. It can fail, since an answer may hold any numbers.
impl TryFrom<Answer> for Result<u64, Refusal> {
    type Error = UnknownNumber;

    ghost try_from_gives = { Shows };

    fn try_from(answer: Answer) -> Result<Result<u64, Refusal>, UnknownNumber> {
        if answer.refusal == 0 {
            return Ok(Ok(answer.answer));
        }
        Ok(Err(Refusal::try_from(answer.refusal)?))
    }
}
