ghost use Rattle.std.specs.Prelude.{◌≡◌, min, [], length};
ghost use Rattle.book.specs.Meaning.{max_capacity};
ghost use Rattle.choices.specs.Tables.{table_of, standing_in, capacity_of, tables_kept};

use crate::table::{Table, TableBook};
use arrival::ArrivalBook;
use book::{Book, StandingOrder};
use model::{Order, Side};
use ranked::RankedBook;

impl Table {
    // An empty book in a lent slice, whatever it holds. Its capacity is the slice's length, or 4,096 if that is less.
    // What a new table holds is said here and by each table's own `new`: no type can hold a fact of the moment when it is made.
    pub fn empty<'a>(self, rows: &'a mut [Order]) -> TableBook<'a>
        ensures table { table_of result ≡ self }
        ensures empty { standing_in result ≡ [] }
        ensures room { capacity_of result ≡ min (length rows.old) max_capacity }
    {
        match self {
            Table::Arrival => TableBook::Arrival(ArrivalBook::new(rows)),
            Table::Ranked => TableBook::Ranked(RankedBook::new(rows)),
        }
    }
}

// An arm for each table in each method: the same call of two types, and no dyn, which a library may not hand out.
impl<'a> Book for TableBook<'a> {
    ghost orders = { standing_in };

    ghost capacity = { capacity_of };

    ghost kept = { tables_kept };

    fn add(&mut self, order: StandingOrder) -> bool {
        match self {
            TableBook::Arrival(book) => book.add(order),
            TableBook::Ranked(book) => book.add(order),
        }
    }

    fn take(&mut self, number: u64, amount: u64) -> bool {
        match self {
            TableBook::Arrival(book) => book.take(number, amount),
            TableBook::Ranked(book) => book.take(number, amount),
        }
    }

    fn turn(&mut self, number: u64, price: u32) -> bool {
        match self {
            TableBook::Arrival(book) => book.turn(number, price),
            TableBook::Ranked(book) => book.turn(number, price),
        }
    }

    fn find(&self, number: u64) -> Option<StandingOrder> {
        match self {
            TableBook::Arrival(book) => book.find(number),
            TableBook::Ranked(book) => book.find(number),
        }
    }

    // In line: a walk in rank asks for one order after another.
    #[inline(always)]
    fn nth(&self, side: Side, n: usize) -> Option<StandingOrder> {
        match self {
            TableBook::Arrival(book) => book.nth(side, n),
            TableBook::Ranked(book) => book.nth(side, n),
        }
    }

    fn count(&self) -> (usize, usize) {
        match self {
            TableBook::Arrival(book) => book.count(),
            TableBook::Ranked(book) => book.count(),
        }
    }

    fn after(&self, number: u64) -> Option<StandingOrder> {
        match self {
            TableBook::Arrival(book) => book.after(number),
            TableBook::Ranked(book) => book.after(number),
        }
    }

    fn next_on(&self, side: Side, number: u64) -> Option<StandingOrder> {
        match self {
            TableBook::Arrival(book) => book.next_on(side, number),
            TableBook::Ranked(book) => book.next_on(side, number),
        }
    }
}
