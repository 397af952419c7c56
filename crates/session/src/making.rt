ghost use Rattle.std.specs.Prelude.{◌≡◌, MatchResult};
ghost use Rattle.model.specs.Numbers.{code, no_refusal};
ghost use Rattle.model.specs.Making.{make_refusal, made, New};
ghost use Rattle.grid.specs.Views.{offered};
ghost use Rattle.session.specs.Views.{state};

use crate::session::Session;
use book::Book;
use grid::{Settings, Terms};
use model::{DayState, Phase, Refusal};
use pricing::{MostTraded, PriceRule};

impl<B: Book, R: PriceRule> Session<B, R> {
    // A new session in pre-opening over an empty book, or the first question that is answered no, with book and rule given back.
    // Given back as three, and no struct: a caller takes them apart at once.
    pub fn new(terms: Terms, book: B, rule: R) -> Result<Session<B, R>, (Refusal, B, R)>
        ensures { MatchResult result (λ s. (make_refusal (offered terms) terms.last_number (B.orders book) ≡ no_refusal) × (state B.orders B.capacity s ≡ made (offered terms) terms.last_number (B.orders book) (B.capacity book)) × (s.book ≡ book) × (s.rule.below ≡ rule) × New (state B.orders B.capacity s)) (λ e. (code e.0 ≡ make_refusal (offered terms) terms.last_number (B.orders book)) × (e.1 ≡ book) × (e.2 ≡ rule)) }
    {
        // A match, and no map_err: book and rule go back with the refusal, and are still needed without one.
        let settings = match Settings::try_from(terms) {
            Ok(settings) => settings,
            Err(why) => return Err((why, book, rule)),
        };
        let (count, _) = book.count();
        if count > 0 {
            return Err((Refusal::BookNotEmpty, book, rule));
        }
        Ok(Session {
            book,
            rule: MostTraded { below: rule },
            settings,
            day: DayState {
                phase: Phase::PreOpening,
                reference: settings.indicative,
                last: settings.last_number,
                used: 0,
            },
        })
    }
}
