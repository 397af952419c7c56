ghost use Rattle.model.specs.Rank.{ranked};
ghost use Rattle.grid.specs.Views.{plain};
ghost use Rattle.curve.specs.Reaching.{Counted, Reached};

use crate::marks::Mark;
use book::Book;
use grid::Settings;
use model::Side;
use walking::first_active;

// Counts on from a mark, as far as the active orders allow the price.
pub(crate) fn reach<B: Book>(book: &B, settings: &Settings, side: Side, price: u32, mark: &mut Mark)
    requires { Counted (plain settings.now) side (B.orders book.now) mark.old }
    ensures counted { Counted (plain settings.now) side (B.orders book.now) mark.new }
    ensures reached { Reached (plain settings.now) side (ranked side (B.orders book.now)) price mark.old mark.new }
{
    // a walk, and no chain: the order that it stops at is part of the answer
    while let Some(next) = mark.next {
        if !next.order.price.allows(side, price) {
            return;
        }
        mark.next = first_active(book, settings, side, next.place + 1);
        mark.total += next.order.left;
    }
}
