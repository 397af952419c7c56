ghost use Rattle.std.specs.Prelude.{◌≡◌, true, length};
ghost use Rattle.model.specs.declared.types.Phase.TheVariants.{Called};
ghost use Rattle.model.specs.Grid.{on_grid};
ghost use Rattle.model.specs.Calls.{strike as strike_outcome};
ghost use Rattle.model.specs.Views.{view, Came};
ghost use Rattle.grid.specs.Views.{plain};

use crate::days::begin_trading;
use book::Book;
use grid::Settings;
use model::{DayState, Refusal, TapeRecord};
use striking::{strike, strike_size};
use tape::Tape;

// Strikes the called price: trades the called quantity at it, and begins trading about it. Answers the quantity.
pub fn strike_called<B: Book>(
    book: &mut B,
    settings: &Settings,
    day: &mut DayState,
    price: u32,
    quantity: u64,
    tape: &mut [TapeRecord],
) -> Result<u64, Refusal>
    requires phase { day.old.phase ≡ Called price quantity }
    requires grid { on_grid (plain settings.now) price ≡ true }
    ensures came { Came (strike_outcome (view (plain settings.now) day.old (B.orders book.old) (B.capacity book.old)) (length tape.old) price quantity) result (view (plain settings.now) day.new (B.orders book.new) (B.capacity book.new)) tape.old day.old.used tape.new }
    ensures room { B.capacity book.new ≡ B.capacity book.old }
{
    let size = strike_size(book, settings, price, quantity);
    day.ask_room(size.trades.saturating_add(size.idle), tape.len())?;
    let mut out = Tape::new(tape, day.used);
    strike(book, settings, price, quantity, &mut out);
    begin_trading(day, price, out.next);
    Ok(quantity)
}
