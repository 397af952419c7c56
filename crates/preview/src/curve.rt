ghost use Rattle.std.specs.Prelude.{◌≡◌, ◌++◌, length, drop, MatchResult};
ghost use Rattle.model.specs.Grid.{count};
ghost use Rattle.model.specs.Curve.{curve};
ghost use Rattle.grid.specs.Views.{plain};
ghost use Rattle.preview.specs.Totals.{curve_fault};

use crate::faults::Fault;
use crate::volumes::Market;
use grid::Settings;
use model::{Order, Point};

// Writes the point of each grid price, from the lowest up, to the front of the scratch, and answers how many.
// A refusal leaves the scratch as it was.
// Not the one of `curve`: these orders are in no book, so they are not ranked, and their sum may be too large.
pub fn write_curve(
    settings: &Settings,
    orders: &[Order],
    scratch: &mut [Point],
) -> Result<usize, Fault>
    ensures value { MatchResult result (λ n. (n ≡ count (plain settings.now)) × (curve_fault (plain settings.now) orders.now (length scratch.old) ≡ None)) (λ e. curve_fault (plain settings.now) orders.now (length scratch.old) ≡ Some e) }
    ensures scratch { MatchResult result (λ _. scratch.new ≡ curve (plain settings.now) orders.now ++ drop (count (plain settings.now)) scratch.old) (λ _. scratch.new ≡ scratch.old) }
{
    let market = Market::new(settings, orders)?;
    let count = settings.count();
    if scratch.len() < count {
        return Err(Fault::ScratchTooShort);
    }
    market.fill_curve(scratch);
    Ok(count)
}
