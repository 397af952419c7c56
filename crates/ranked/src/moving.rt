ghost use Rattle.std.specs.Prelude.{◌≡◌, ◌<◌, length, slice_index_or, slice_set};
ghost use Rattle.std.specs.List.{insert, remove};
ghost use Rattle.rows.specs.Rows.{blank};
ghost use Rattle.ranked.specs.Views.{view, row_index};

use model::{Order, Side};

// Functions of the rows, and no methods of `Sides`: each that writes would have to promise that the counts stay.
// A side and an index, and no position: a move has two places on one side. That they are among the rows is required, as of any index.

// The i-th row from the end of a side.
pub(crate) fn read_row(rows: &[Order], side: Side, i: usize) -> Order
    requires { i < length rows.now }
    ensures { result ≡ slice_index_or (view side rows.now) i blank }
{
    let at = row_index(rows.len(), side, i);
    rows[at]
}

// Writes an order over the i-th row.
pub(crate) fn write_row(rows: &mut [Order], side: Side, i: usize, order: Order)
    requires { i < length rows.old }
    ensures { view side rows.new ≡ slice_set (view side rows.old) i order }
{
    let at = row_index(rows.len(), side, i);
    rows[at] = order;
}

// Moves the row at one place to another, and those between them by one.
pub(crate) fn move_row(rows: &mut [Order], side: Side, from: usize, to: usize)
    requires from { from < length rows.old }
    requires to { to < length rows.old }
    ensures { view side rows.new ≡ insert (remove (view side rows.old) from) to (slice_index_or (view side rows.old) from blank) }
{
    let source = row_index(rows.len(), side, from);
    let target = row_index(rows.len(), side, to);
    if source <= target {
        rows[source..target + 1].rotate_left(1);
    } else {
        // no `rotate_right`: with that the archive for C asks for `memcpy` from outside, for rotations by any number of rows
        let row = rows[source];
        rows.copy_within(target..source, target + 1);
        rows[target] = row;
    }
}

// The index of the i-th of so many rows, counted from the end of a side.
fn row_index(count: usize, side: Side, i: usize) -> usize
    requires { i < count }
    ensures { result ≡ row_index count side i }
{
    match side {
        Side::Buy => i,
        Side::Sell => count - 1 - i,
    }
}
