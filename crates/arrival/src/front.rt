ghost use Rattle.std.specs.Prelude.{◌≤◌, min, length};
ghost use Rattle.book.specs.Meaning.{max_capacity};

use book::MAX_CAPACITY;
use model::Order;

// Orders in the front of a lent slice, no more of them than may stand.
// That the room stays is said of each change: no type can hold a fact of a front before and after.
#[derive(Drop)]
pub(crate) struct Front<'a> {
    // lent rows with a count, and no Vec, since a book allocates nothing
    rows: &'a mut [Order],
    count: usize,
    ghost fits: { count ≤ min (length rows.now) max_capacity },
}

impl<'a> Front<'a> {
    ghost use Rattle.std.specs.Prelude.{◌≡◌, ◌<◌, ◌==◌, [], ◌∷◌, ◌++◌, position, slice_set};
    ghost use Rattle.std.specs.List.{remove};
    ghost use Rattle.arrival.specs.Adding.{can_add};
    ghost use Rattle.arrival.specs.Fronts.{orders_in, room_in};

    // No orders yet.
    pub(crate) fn new(rows: &'a mut [Order]) -> Front<'a>
        ensures orders { orders_in result ≡ [] }
        ensures room { room_in result ≡ min (length rows.old) max_capacity }
    {
        Front { rows, count: 0 }
    }

    // The orders that stand.
    pub(crate) fn orders(&self) -> &[Order]
        ensures { result.now ≡ orders_in self.now }
    {
        &self.rows[..self.count]
    }

    // How many orders stand.
    pub(crate) fn count(&self) -> usize
        ensures { result ≡ length (orders_in self.now) }
    {
        self.count
    }

    // How many orders may stand.
    pub(crate) fn capacity(&self) -> usize
        ensures { result ≡ room_in self.now }
    {
        self.rows.len().min(MAX_CAPACITY)
    }

    // Where the order with a number stands.
    pub(crate) fn position(&self, number: u64) -> Option<usize>
        ensures { result ≡ position (λ o. o.number == number) (orders_in self.now) }
    {
        self.orders().iter().position(|o| o.number == number)
    }

    // Whether an order may stand behind all others: a row is free, something is left, and its number is above the last.
    pub(crate) fn may_push(&self, order: Order) -> bool
        ensures { result ≡ can_add (room_in self.now) (orders_in self.now) order }
    {
        let last = self.orders().last();
        self.count < self.capacity()
            && 0 < order.left
            && last.is_none_or(|last| last.number < order.number)
    }

    // Writes an order behind all others.
    pub(crate) fn push(&mut self, order: Order)
        requires { length (orders_in self.old) < room_in self.old }
        ensures orders { orders_in self.new ≡ orders_in self.old ++ order ∷ [] }
        ensures room { room_in self.new ≡ room_in self.old }
    {
        self.rows[self.count] = order;
        self.count += 1;
    }

    // Writes an order over the one at i.
    pub(crate) fn replace(&mut self, i: usize, order: Order)
        requires { i < length (orders_in self.old) }
        ensures orders { orders_in self.new ≡ slice_set (orders_in self.old) i order }
        ensures room { room_in self.new ≡ room_in self.old }
    {
        self.rows[i] = order;
    }

    // Drops the order at i, and moves those above it one down.
    pub(crate) fn remove(&mut self, i: usize)
        requires { i < length (orders_in self.old) }
        ensures orders { orders_in self.new ≡ remove (orders_in self.old) i }
        ensures room { room_in self.new ≡ room_in self.old }
    {
        self.rows[i..self.count].rotate_left(1);
        self.count -= 1;
    }
}
