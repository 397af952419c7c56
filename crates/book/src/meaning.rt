ghost use Rattle.std.specs.Prelude.{◌≡◌, ℕ, List, [], ◌∷◌, ◌++◌, length, if◌then◌else◌};
ghost use Rattle.model.specs.declared.types.Order.{Order};
ghost use Rattle.model.specs.Orders.{lower, turn as turned, find as found};
ghost use Rattle.model.specs.Rank.{ranked};
ghost use Rattle.book.specs.Meaning.{Kept, addable, can_take, can_turn, place, next_above, of_side};
ghost use Rattle.book.specs.Plain.{plain, as_plain};

use crate::nearer::{lower_numbered, nearer};
use crate::standing::StandingOrder;
use model::Side;

// The most orders that any book holds.
pub const MAX_CAPACITY: usize = 4_096;

// A book is known by what stands in it and by its capacity, which never changes. Refusals and questions leave what stands as it was.
// That the capacity stays is said of each change: no type can hold a fact of a book before and after.
// A change answers whether it was made, and not which of its conditions failed: no caller asks for that.
pub trait Book {
    // the standing orders, ascending by number
    ghost orders: { Self → List Order };

    // how many orders may stand
    ghost capacity: { Self → ℕ };

    // what holds of every book
    ghost kept: { Kept orders capacity };

    // Puts an order in, unless the capacity is reached, nothing is left of the order, or its number is not above all standing ones.
    fn add(&mut self, order: StandingOrder) -> bool
        ensures answer { result ≡ addable (capacity self.old) (orders self.old) (plain order) }
        ensures after { orders self.new ≡ (if result then orders self.old ++ plain order ∷ [] else orders self.old) }
        ensures room { capacity self.new ≡ capacity self.old };

    // Lowers an order, and drops it at zero, unless the number does not stand, or the amount is zero or more than is left.
    fn take(&mut self, number: u64, amount: u64) -> bool
        ensures answer { result ≡ can_take amount (found number (orders self.old)) }
        ensures after { orders self.new ≡ (if result then lower number amount (orders self.old) else orders self.old) }
        ensures room { capacity self.new ≡ capacity self.old };

    // Turns a market order into a limit order, unless the number is no standing market order or the price is not from 1 to 99,999.
    fn turn(&mut self, number: u64, price: u32) -> bool
        ensures answer { result ≡ can_turn price (found number (orders self.old)) }
        ensures after { orders self.new ≡ (if result then turned number price (orders self.old) else orders self.old) }
        ensures room { capacity self.new ≡ capacity self.old };

    // The order with this number.
    fn find(&self, number: u64) -> Option<StandingOrder>
        ensures { as_plain result ≡ found number (orders self.now) };

    // The n-th order of a side in rank, counted from 1.
    // Side and place are two parameters: a caller goes through the places of one side.
    fn nth(&self, side: Side, n: usize) -> Option<StandingOrder>
        ensures { as_plain result ≡ place n (ranked side (orders self.now)) };

    // How many orders stand, and the capacity: both in one, as the rules have it.
    fn count(&self) -> (usize, usize)
        ensures { (result.0 ≡ length (orders self.now)) × (result.1 ≡ capacity self.now) };

    // The order with the next higher number.
    fn after(&self, number: u64) -> Option<StandingOrder>
        ensures { as_plain result ≡ next_above number (orders self.now) }
    {
        let buy = self.next_on(Side::Buy, number);
        let sell = self.next_on(Side::Sell, number);
        lower_numbered(buy, sell)
    }

    // The order of a side with the next higher number.
    fn next_on(&self, side: Side, number: u64) -> Option<StandingOrder>
        ensures { as_plain result ≡ next_above number (of_side side (orders self.now)) }
    {
        let (count, _) = self.count();
        (0..count)
            .map_while(|i| self.nth(side, i + 1))
            .fold(None, |best, o| nearer(number, best, o))
    }
}
