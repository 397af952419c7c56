ghost use Rattle.std.specs.Prelude.{◌≡◌, ◌+◌, ◌*◌, ◌<◌, ◌≤◌, map, length};
ghost use Rattle.model.specs.Grid.{prices_from};
ghost use Rattle.model.specs.Curve.{point};
ghost use Rattle.grid.specs.Views.{plain};
ghost use Rattle.curve.specs.Runs.{place_in_turn, SideWritten};

use crate::marks::Mark;
use crate::points::with_volume;
use crate::prices::Run;
use crate::reaching::reach;
use book::Book;
use grid::Settings;
use model::{Point, Side};
use walking::first_active;

// Writes the points of a run of prices a tick apart, from `from` up, one for each place of the slice.
pub fn write_run<B: Book>(book: &B, settings: &Settings, from: u32, points: &mut [Point])
    requires { from + length points.old * settings.now.tick ≤ 200000 }
    ensures { points.new ≡ map (point (plain settings.now) (B.orders book.now)) (prices_from settings.now.tick from (length points.old)) }
{
    // where there is no point, no order is looked at
    if points.is_empty() {
        return;
    }
    let run = Run {
        settings,
        from,
        count: points.len(),
    };
    write_side(book, &run, Side::Buy, points);
    write_side(book, &run, Side::Sell, points);
}

// Writes the price and the volume of one side to each point, from the side's best price on, and leaves the other side's volume.
fn write_side<B: Book>(book: &B, run: &Run, side: Side, points: &mut [Point])
    requires { length points.old ≡ run.now.count }
    ensures { SideWritten (plain run.now.settings.now) (B.orders book.now) side run.now.from points.old points.new }
{
    let mut mark = Mark {
        next: first_active(book, run.settings, side, 0),
        total: 0,
    };
    // by index, since the two sides go through the places in opposite order: `iter_mut` and its `rev` are two types,
    // and to loop over either takes one loop for each side, or a function that promises this of any iterator of places
    for turn in 0..run.count {
        let i = place_in_turn(side, run.count, turn);
        let price = run.price_at(i);
        reach(book, run.settings, side, price, &mut mark);
        points[i] = with_volume(side, points[i], price, mark.total);
    }
}

// Buys are counted from the highest price down, sells from the lowest up.
fn place_in_turn(side: Side, count: usize, turn: usize) -> usize
    requires { turn < count }
    ensures value { result ≡ place_in_turn side count turn }
    ensures within { result < count }
{
    match side {
        Side::Buy => count - (turn + 1),
        Side::Sell => turn,
    }
}
