ghost use Rattle.std.specs.Prelude.{◌≡◌, ◌≤◌, true};
ghost use Rattle.model.specs.Orders.{Standing};
ghost use Rattle.model.specs.Standing.{standing_prop};
ghost use Rattle.grid.specs.Views.{plain};
ghost use Rattle.session.specs.Called.{called_fine};

use book::Book;
use grid::Settings;
use model::DayState;
use pricing::{MostTraded, PriceRule};

// One security's day over one book, under most traded over one price rule.
// That the rule stays is said of each call: no type can hold a fact of a session before and after.
// A called price is on the grid, and something trades at it. The reference price is at least 1.
// No order that stands has a number above the last one given.
#[derive(Drop)]
pub struct Session<B: Book, R: PriceRule> {
    pub(crate) book: B,
    pub(crate) rule: MostTraded<R>,
    pub(crate) settings: Settings,
    pub(crate) day: DayState,
    ghost called: { called_fine (plain settings) day.phase ≡ true },
    ghost reference: { 1 ≤ day.reference },
    pub ghost sound: { Standing 0 (B.orders book) day.last } by { standing_prop 0 day.last (B.orders book) },
}
