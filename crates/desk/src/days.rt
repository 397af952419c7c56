ghost use Rattle.std.specs.Prelude.{◌≡◌, length, MatchResult};
ghost use Rattle.model.specs.Numbers.{code, no_refusal};
ghost use Rattle.model.specs.Making.{made};
ghost use Rattle.grid.specs.Views.{offered};
ghost use Rattle.desk.specs.Days.{day_refusal, Lived, Unlived};

use crate::ends::DayEnd;
use book::Book;
use grid::Terms;
use model::{Answer, Call, Point, Refusal, TapeRecord};
use pricing::PriceRule;
use session::{Session, run};

// Trades a whole day: makes a session over a book and a rule, and runs a list of calls on it.
// It is refused where the session cannot be made, or where there are too few places for answers.
// Seven parameters: what a session is made of, its list, and what it is lent. A struct of any of them would be made for this one call.
pub fn trade_day<B: Book + Drop, R: PriceRule + Drop>(
    terms: Terms,
    book: B,
    rule: R,
    calls: &[Call],
    answers: &mut [Answer],
    tape: &mut [TapeRecord],
    scratch: &mut [Point],
) -> Result<DayEnd, Refusal>
    ensures refusal { MatchResult result (λ _. day_refusal (offered terms) terms.last_number (B.orders book) (length answers.old) calls.now ≡ no_refusal) (λ e. day_refusal (offered terms) terms.last_number (B.orders book) (length answers.old) calls.now ≡ code e) }
    ensures day { MatchResult result (λ d. Lived (R.rule rule) (length tape.old) (length scratch.old) (made (offered terms) terms.last_number (B.orders book) (B.capacity book)) calls.now d answers.old answers.new tape.old tape.new scratch.old scratch.new) (λ _. Unlived answers.old answers.new tape.old tape.new scratch.old scratch.new) }
{
    let mut session = Session::new(terms, book, rule).map_err(|(why, _, _)| why)?;
    let calls = run(&mut session, calls, answers, tape, scratch)?;
    Ok(day_end(&session, calls))
}

// What a session's day has come to after so many calls.
fn day_end<B: Book, R: PriceRule>(session: &Session<B, R>, calls: usize) -> DayEnd
    ensures { (result.calls ≡ calls) × (result.reference ≡ session.now.day.reference) × (result.used ≡ session.now.day.used) × (result.standing ≡ length (B.orders session.now.book)) }
{
    let day = session.day();
    let (standing, _) = session.book().count();
    DayEnd {
        calls,
        reference: day.reference,
        used: day.used,
        standing,
    }
}
