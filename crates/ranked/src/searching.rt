ghost use Rattle.std.specs.Prelude.{◌≡◌, ◌<◌, T, None, MatchOption, slice_index_or};
ghost use Rattle.std.specs.List.{position_or_len};
ghost use Rattle.model.specs.Orders.{find};
ghost use Rattle.model.specs.Rank.{before, insert as ranked_in};
ghost use Rattle.book.specs.Meaning.{all_below};
ghost use Rattle.rows.specs.Rows.{blank};
ghost use Rattle.ranked.specs.Queues.{count_of, queue, Descends, HasRoom, Changed};
ghost use Rattle.ranked.specs.Positions.{StandsAt, Located, nth_of};

use crate::position::Position;
use crate::sides::Sides;
use model::{Order, Side};
use rows::comes_before;

impl<'a> Sides<'a> {
    // Puts an order in where it ranks on its side.
    // A free row is required, and no fact of the type: a full table has none. That the side is in rank is a fact
    // of the table, and none of `Sides`, whose `insert` and `replace` write any order at any place: it is required too.
    pub(crate) fn enter(&mut self, order: Order)
        requires free { HasRoom self.old }
        requires ranks { Descends order.side (queue order.side self.old) }
        ensures { Changed order.side (ranked_in order.side order (queue order.side self.old)) self.old self.new }
    {
        let index = self.rank_of(order);
        let side = order.side;
        self.insert(Position { side, index }, order);
    }

    // The n-th order of a side, counted from 1.
    pub(crate) fn nth(&self, side: Side, n: usize) -> Option<Order>
        ensures { result ≡ nth_of n (count_of side self.now) (queue side self.now) }
    {
        let count = self.len(side);
        let index = n.checked_sub(1).filter(|index| *index < count)?;
        Some(self.at(Position { side, index }))
    }

    // Where the order with a number stands.
    pub(crate) fn locate(&self, number: u64) -> Option<Position>
        ensures { Located self.now number result }
    {
        // the first in rank is the one that trades: the first sell is looked at before the buys, whose search begins with their first
        let side = Side::Sell;
        if self.is_first(side, number) {
            return Some(Position { side, index: 0 });
        }
        // an early return, and no `or_else`: the check finds no proof where the second search is a closure
        if let Some(at) = self.locate_on(Side::Buy, number) {
            return Some(at);
        }
        self.locate_on(side, number)
    }

    // Whether all numbers of a side are below a number.
    pub(crate) fn are_below(&self, side: Side, number: u64) -> bool
        ensures { result ≡ all_below (queue side self.now) number }
    {
        self.orders(side).all(|order| order.number < number)
    }

    // Whether the first order of a side has a number.
    fn is_first(&self, side: Side, number: u64) -> bool
        ensures { T result → (0 < count_of side self.now) × ((slice_index_or (queue side self.now) 0 blank).number ≡ number) }
    {
        self.nth(side, 1)
            .is_some_and(|order| order.number == number)
    }

    // Where the order with a number stands on a side.
    fn locate_on(&self, side: Side, number: u64) -> Option<Position>
        ensures { MatchOption result (find number (queue side self.now) ≡ None) (λ at. StandsAt self.now number at) }
    {
        let index = self.orders(side).position(|order| order.number == number)?;
        Some(Position { side, index })
    }

    // How many orders of its side an order ranks behind, by halves: those ahead of it stand together.
    // The rows of sells lie the last in rank first, so there those behind it are counted, and taken off.
    fn rank_of(&self, order: Order) -> usize
        requires { Descends order.side (queue order.side self.now) }
        ensures { result ≡ position_or_len (before order.side order) (queue order.side self.now) }
    {
        let side = order.side;
        let rows = self.side_rows(side);
        match side {
            Side::Buy => rows.partition_point(|other| !comes_before(side, order, *other)),
            Side::Sell => {
                rows.len() - rows.partition_point(|other| comes_before(side, order, *other))
            }
        }
    }
}
