ghost use Rattle.grid.specs.Views.{plain};
ghost use Rattle.striking.specs.Parties.{First};

use book::Book;
use grid::Settings;
use model::Side;
use walking::{Placed, first_active};

// The first order of a side in rank, at or after a place, that may trade at the price.
// Price and settings are two parameters, here and above: the public functions are handed them apart, and a trade and a turn take the price alone.
pub(crate) fn first_party<B: Book>(
    book: &B,
    settings: &Settings,
    side: Side,
    price: u32,
    from: usize,
) -> Option<Placed>
    ensures { First (plain settings.now) side price (B.orders book.now) from result }
{
    first_active(book, settings, side, from).filter(|party| party.order.price.allows(side, price))
}
