ghost use Rattle.std.specs.Prelude.{◌≡◌, ◌++◌, length, drop, if◌then◌else◌, Some, None, nat_lt};
ghost use Rattle.model.specs.Grid.{count};
ghost use Rattle.model.specs.Curve.{curve};
ghost use Rattle.grid.specs.Views.{plain};

use crate::prices::Run;
use crate::runs::write_run;
use book::Book;
use grid::Settings;
use model::Point;

// Writes the point of each grid price, from the lowest up, to the front of the scratch, and answers how many.
// A scratch with fewer places than the grid has prices is left as it was.
pub fn write_curve<B: Book>(book: &B, settings: &Settings, scratch: &mut [Point]) -> Option<usize>
    ensures value { result ≡ (if nat_lt (length scratch.old) (count (plain settings.now)) then None else Some (count (plain settings.now))) }
    ensures written { scratch.new ≡ (if nat_lt (length scratch.old) (count (plain settings.now)) then scratch.old else curve (plain settings.now) (B.orders book.now) ++ drop (count (plain settings.now)) scratch.old) }
{
    let grid = Run::grid(settings);
    if scratch.len() < grid.count {
        return None;
    }
    write_run(book, settings, grid.from, &mut scratch[..grid.count]);
    Some(grid.count)
}
