ghost use Rattle.std.specs.Prelude.{◌≡◌, ◌+◌, ◌<◌, ◌≤◌, min, length, slice_index_or, slice_set};
ghost use Rattle.std.specs.List.{insert, remove};
ghost use Rattle.std.specs.Slice.Iter.{iter_rest};
ghost use Rattle.model.specs.declared.types.Side.TheVariants.{Buy, Sell};
ghost use Rattle.model.specs.Rank.{opposite};
ghost use Rattle.book.specs.Meaning.{max_capacity};
ghost use Rattle.rows.specs.Rows.{blank};
ghost use Rattle.ranked.specs.Views.{view};
ghost use Rattle.ranked.specs.Queues.{count_of, capacity_of, queue, HasRoom, Changed};

use crate::moving::{move_row, read_row, write_row};
use crate::orders::Orders;
use crate::position::Position;
use crate::sides::Sides;
use book::MAX_CAPACITY;
use model::{Order, Side};

impl<'a> Sides<'a> {
    // Two empty queues in the first rows, at most 4,096.
    pub(crate) fn new(rows: &'a mut [Order]) -> Sides<'a>
        ensures buys { count_of Buy result ≡ 0 }
        ensures sells { count_of Sell result ≡ 0 }
        ensures room { capacity_of result ≡ min (length rows.old) max_capacity }
    {
        let room = rows.len().min(MAX_CAPACITY);
        Sides {
            rows: &mut rows[..room],
            buys: 0,
            sells: 0,
        }
    }

    // How many orders a side has.
    // two counts and a match: an array of both would need a number for each side
    pub(crate) fn len(&self, side: Side) -> usize
        ensures { result ≡ count_of side self.now }
    {
        match side {
            Side::Buy => self.buys,
            Side::Sell => self.sells,
        }
    }

    // How many orders both sides have.
    pub(crate) fn count(&self) -> usize
        ensures { result ≡ count_of Buy self.now + count_of Sell self.now }
    {
        self.buys + self.sells
    }

    // How many rows there are.
    pub(crate) fn capacity(&self) -> usize
        ensures { result ≡ capacity_of self.now }
    {
        self.rows.len()
    }

    // The rows of a side: seen from its end they are its queue.
    pub(crate) fn side_rows(&self, side: Side) -> &[Order]
        ensures { view side result.now ≡ queue side self.now }
    {
        match side {
            Side::Buy => &self.rows[..self.buys],
            Side::Sell => &self.rows[self.capacity() - self.sells..],
        }
    }

    // The orders of a side, the first in rank first.
    pub(crate) fn orders(&self, side: Side) -> Orders<'_>
        ensures { view result.side (iter_rest result.rows) ≡ queue side self.now }
    {
        Orders {
            rows: self.side_rows(side).iter(),
            side,
        }
    }

    // The order at a position.
    pub(crate) fn at(&self, at: Position) -> Order
        requires { at.index < count_of at.side self.now }
        ensures { result ≡ slice_index_or (queue at.side self.now) at.index blank }
    {
        read_row(self.rows, at.side, at.index)
    }

    // Writes an order over the one at a position.
    pub(crate) fn replace(&mut self, at: Position, order: Order)
        requires { at.index < count_of at.side self.old }
        ensures { Changed at.side (slice_set (queue at.side self.old) at.index order) self.old self.new }
    {
        write_row(self.rows, at.side, at.index, order);
    }

    // Puts an order in at a position, and moves the later ones.
    pub(crate) fn insert(&mut self, at: Position, order: Order)
        requires free { HasRoom self.old }
        requires within { at.index ≤ count_of at.side self.old }
        ensures { Changed at.side (insert (queue at.side self.old) at.index order) self.old self.new }
    {
        let count = self.len(at.side);
        move_row(self.rows, at.side, count, at.index);
        write_row(self.rows, at.side, at.index, order);
        self.set_len(at.side, count + 1);
    }

    // Takes the order at a position out, and moves the later ones.
    pub(crate) fn remove(&mut self, at: Position)
        requires { at.index < count_of at.side self.old }
        ensures free { HasRoom self.new }
        ensures after { Changed at.side (remove (queue at.side self.old) at.index) self.old self.new }
    {
        let last = self.len(at.side) - 1;
        move_row(self.rows, at.side, at.index, last);
        self.set_len(at.side, last);
    }

    // A side has so many orders now.
    fn set_len(&mut self, side: Side, count: usize)
        requires { count + count_of (opposite side) self.old ≤ capacity_of self.old }
        ensures own { count_of side self.new ≡ count }
        ensures others { count_of (opposite side) self.new ≡ count_of (opposite side) self.old }
        ensures rows { self.new.rows.now ≡ self.old.rows.now }
    {
        match side {
            Side::Buy => self.buys = count,
            Side::Sell => self.sells = count,
        }
    }
}
