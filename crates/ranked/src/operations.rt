ghost use Rattle.std.specs.Prelude.{◌≡◌, min, [], length};
ghost use Rattle.book.specs.Meaning.{max_capacity, all_below, addable};
ghost use Rattle.ranked.specs.Meaning.{orders_in, capacity_in};
ghost use Rattle.ranked.specs.Keeping.{ranked_kept};

use crate::sides::Sides;
use crate::table::RankedBook;
use book::{Book, StandingOrder};
use model::{Order, Side};
use rows::{after_take, after_turn};

impl<'a> RankedBook<'a> {
    // An empty book in a lent slice of any length and any contents; at most 4,096 of its rows are used.
    // What it holds when new is said by each table's own `new`: no type can hold a fact of the moment when it is made.
    pub fn new(rows: &'a mut [Order]) -> RankedBook<'a>
        ensures empty { orders_in result ≡ [] }
        ensures room { capacity_in result ≡ min (length rows.old) max_capacity }
    {
        RankedBook {
            sides: Sides::new(rows),
            top: 0,
        }
    }

    // Whether an order may be added: a row is free, something is left, and its number is above all others.
    fn may_add(&self, order: Order) -> bool
        ensures { result ≡ addable (capacity_in self.now) (orders_in self.now) order }
    {
        self.sides.count() < self.sides.capacity() && 0 < order.left && self.are_below(order.number)
    }

    // Whether all numbers are below a number. One above the top is above all, without a look at the rows.
    fn are_below(&self, number: u64) -> bool
        ensures { result ≡ all_below (orders_in self.now) number }
    {
        number > self.top
            || self.sides.are_below(Side::Buy, number) && self.sides.are_below(Side::Sell, number)
    }
}

// `nth` and `count` take constant time; the other operations are linear in the orders that stand.
impl<'a> Book for RankedBook<'a> {
    ghost orders = { orders_in };

    ghost capacity = { capacity_in };

    ghost kept = { ranked_kept };

    fn add(&mut self, order: StandingOrder) -> bool {
        let row = Order::from(order);
        if !self.may_add(row) {
            return false;
        }
        self.sides.enter(row);
        self.top = self.top.max(row.number);
        true
    }

    fn take(&mut self, number: u64, amount: u64) -> bool {
        let Some(at) = self.sides.locate(number) else {
            return false;
        };
        let order = self.sides.at(at);
        let Some(rest) = after_take(order, amount) else {
            return false;
        };
        if rest.left == 0 {
            self.sides.remove(at);
            return true;
        }
        self.sides.replace(at, rest);
        true
    }

    fn turn(&mut self, number: u64, price: u32) -> bool {
        let Some(at) = self.sides.locate(number) else {
            return false;
        };
        let order = self.sides.at(at);
        let Some(limited) = after_turn(order, price) else {
            return false;
        };
        self.sides.remove(at);
        self.sides.enter(limited);
        true
    }

    fn find(&self, number: u64) -> Option<StandingOrder> {
        let at = self.sides.locate(number)?;
        StandingOrder::try_from(self.sides.at(at)).ok()
    }

    fn nth(&self, side: Side, n: usize) -> Option<StandingOrder> {
        StandingOrder::try_from(self.sides.nth(side, n)?).ok()
    }

    fn count(&self) -> (usize, usize) {
        (self.sides.count(), self.sides.capacity())
    }
}
