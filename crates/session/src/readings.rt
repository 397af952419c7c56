ghost use Rattle.std.specs.Prelude.{◌≡◌};

use crate::session::Session;
use book::Book;
use model::DayState;
use pricing::PriceRule;

impl<B: Book, R: PriceRule> Session<B, R> {
    // How far the session has come in its day.
    pub fn day(&self) -> DayState
        ensures { result ≡ self.now.day }
    {
        self.day
    }

    // The book, to be read.
    pub fn book(&self) -> &B
        ensures { result.now ≡ self.now.book }
    {
        &self.book
    }
}
