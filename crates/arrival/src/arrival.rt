ghost use Rattle.std.specs.Prelude.{◌≡◌};
ghost use Rattle.book.specs.Plain.{as_plain};
ghost use Rattle.rows.specs.Rows.{Held};
ghost use Rattle.arrival.specs.Checking.{checked};
ghost use Rattle.arrival.specs.Fronts.{orders_in};

use crate::front::Front;
use crate::ranks::nth_in_rank;
use book::{Book, StandingOrder};
use model::{Order, Side};
use rows::{after_take, after_turn};

// A book in the front of a lent slice, its orders in the order in which they came, so ascending by number.
// To find an order is one scan of the rows, to add one looks at the last row alone, to drop one moves the rows
// above it one down, and the n-th of a side in rank is n scans.
#[derive(Drop)]
pub struct ArrivalBook<'a> {
    front: Front<'a>,
    ghost held: { ∥ Held (orders_in front) ∥₁ },
}

impl<'a> ArrivalBook<'a> {
    ghost use Rattle.std.specs.Prelude.{min, [], length};
    ghost use Rattle.book.specs.Meaning.{max_capacity};
    ghost use Rattle.arrival.specs.Books.{standing_in, capacity_of};

    // An empty book in a slice, whatever it holds. Its capacity is the slice's length, or 4,096 if that is less.
    // What it holds when new is said by each table's own `new`: no type can hold a fact of the moment when it is made.
    pub fn new(rows: &'a mut [Order]) -> ArrivalBook<'a>
        ensures empty { standing_in result ≡ [] }
        ensures room { capacity_of result ≡ min (length rows.old) max_capacity }
    {
        ArrivalBook {
            front: Front::new(rows),
        }
    }
}

// Much like the ranked table's, but rows lie and move in another way. What may be taken from or turned is asked in `rows`;
// whether an order may be added each table asks of its own rows.
// `find`, `after` and `next_on` differ in what they look for: a function of the three would take that as a closure,
// and each of them would still have to prove what it then answers.
impl<'a> Book for ArrivalBook<'a> {
    ghost use Rattle.arrival.specs.Books.{standing_in, capacity_of, arrival_kept};

    ghost orders = { standing_in };

    ghost capacity = { capacity_of };

    ghost kept = { arrival_kept };

    fn add(&mut self, order: StandingOrder) -> bool {
        let row = Order::from(order);
        if !self.front.may_push(row) {
            return false;
        }
        self.front.push(row);
        true
    }

    fn take(&mut self, number: u64, amount: u64) -> bool {
        let Some(i) = self.front.position(number) else {
            return false;
        };
        let Some(rest) = after_take(self.front.orders()[i], amount) else {
            return false;
        };
        if rest.left == 0 {
            self.front.remove(i);
        } else {
            self.front.replace(i, rest);
        }
        true
    }

    fn turn(&mut self, number: u64, price: u32) -> bool {
        let Some(i) = self.front.position(number) else {
            return false;
        };
        let Some(limited) = after_turn(self.front.orders()[i], price) else {
            return false;
        };
        self.front.replace(i, limited);
        true
    }

    fn find(&self, number: u64) -> Option<StandingOrder> {
        let mut orders = self.front.orders().iter().copied();
        as_standing(orders.find(|o| o.number == number))
    }

    fn nth(&self, side: Side, n: usize) -> Option<StandingOrder> {
        as_standing(nth_in_rank(self.front.orders(), side, n))
    }

    fn count(&self) -> (usize, usize) {
        (self.front.count(), self.front.capacity())
    }

    fn after(&self, number: u64) -> Option<StandingOrder> {
        let mut orders = self.front.orders().iter().copied();
        as_standing(orders.find(|o| number < o.number))
    }

    fn next_on(&self, side: Side, number: u64) -> Option<StandingOrder> {
        let mut orders = self.front.orders().iter().copied();
        as_standing(orders.find(|o| side == o.side && number < o.number))
    }
}

// The standing order of a row that may be there. No `From`: both options are the library's type, and none of this crate.
fn as_standing(row: Option<Order>) -> Option<StandingOrder>
    ensures { as_plain result ≡ checked row }
{
    StandingOrder::try_from(row?).ok()
}
