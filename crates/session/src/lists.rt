ghost use Rattle.std.specs.Prelude.{◌≡◌, length, MatchResult};
ghost use Rattle.model.specs.declared.types.Refusal.TheVariants.{AnswersTooShort};
ghost use Rattle.model.specs.Numbers.{code, no_refusal};
ghost use Rattle.model.specs.Making.{New};
ghost use Rattle.model.specs.Run.{run as outcomes, list_refusal, calls_run, Ran};
ghost use Rattle.model.specs.Laws.{Kept};
ghost use Rattle.session.specs.Views.{state};

use crate::session::Session;
use book::Book;
use model::{Answer, Call, Point, Refusal, TapeRecord};
use pricing::PriceRule;

// Runs a list of calls from first to last, and writes one answer for each. A list with more calls than there are places for answers is refused whole.
// Answers, tape and scratch are three parameters, as tape and scratch are in `call`: a struct of them would be taken apart
// at each step, which takes tape and scratch alone, and each is promised by itself.
pub fn run<B: Book, R: PriceRule>(
    session: &mut Session<B, R>,
    calls: &[Call],
    answers: &mut [Answer],
    tape: &mut [TapeRecord],
    scratch: &mut [Point],
) -> Result<usize, Refusal>
    ensures refusal { MatchResult result (λ n. (list_refusal (length answers.old) calls.now ≡ no_refusal) × (n ≡ length calls.now)) (λ e. list_refusal (length answers.old) calls.now ≡ code e) }
    ensures ran { Ran (R.rule session.old.rule.below) (length tape.old) (length scratch.old) (state B.orders B.capacity session.old) (state B.orders B.capacity session.new) (calls_run (length answers.old) calls.now) answers.old answers.new tape.old tape.new scratch.old scratch.new }
    ensures laws { New (state B.orders B.capacity session.old) → Kept (R.rule session.old.rule.below) (length tape.old) (state B.orders B.capacity session.old) (calls_run (length answers.old) calls.now) (outcomes (R.rule session.old.rule.below) (length tape.old) (length scratch.old) (state B.orders B.capacity session.old) (calls_run (length answers.old) calls.now)) }
    ensures rule { session.new.rule ≡ session.old.rule }
{
    if answers.len() < calls.len() {
        return Err(Refusal::AnswersTooShort);
    }
    // Answers by index: of what a zip writes nothing is known, and over the answers the calls would be by index.
    for (i, call) in calls.iter().enumerate() {
        answers[i] = Answer::from(session.step(*call, tape, scratch));
    }
    Ok(calls.len())
}
