ghost use Rattle.std.specs.Iterator.{YieldsFirstRef, item_count};
ghost use Rattle.std.specs.Slice.Iter.{iter_rest};
ghost use Rattle.ranked.specs.Views.{view};

use model::{Order, Side};
use std::slice::Iter;

// The orders of a side that are still to come, in rank: buys are taken from the front of their rows, sells from the back.
#[derive(Drop)]
pub(crate) struct Orders<'a> {
    pub(crate) rows: Iter<'a, Order>,
    pub(crate) side: Side,
}

impl<'a> Iterator for Orders<'a> {
    type Item = &'a Order;

    ghost next_gives = { YieldsFirstRef (λ s. view s.side (iter_rest s.rows)) };

    ghost remaining = { item_count (λ s. view s.side (iter_rest s.rows)) };

    fn next(&mut self) -> Option<&'a Order> {
        match self.side {
            Side::Buy => self.rows.next(),
            Side::Sell => self.rows.next_back(),
        }
    }
}
