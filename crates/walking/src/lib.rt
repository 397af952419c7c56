// The active orders of a side, one after another in rank.
#![tactic(auto)]

ghost use Rattle.std.specs.Prelude.{◌+◌, ◌^◌, ◌<◌};
ghost use Rattle.model.specs.Rank.{ranked};
ghost use Rattle.grid.specs.Views.{plain};
ghost use Rattle.walking.specs.Walks.{Next, StandsAt};

mod placed;

use book::Book;
use grid::Settings;
use model::Side;
pub use placed::Placed;

// The first active order of a side at or after a place in rank, with its place, counted from 0. An inactive order is passed over.
// Book and settings are two parameters, here and above: in one struct that is lent to change the book, each function would owe that the settings stay.
pub fn first_active<B: Book>(
    book: &B,
    settings: &Settings,
    side: Side,
    from: usize,
) -> Option<Placed>
    ensures { Next (plain settings.now) (ranked side (B.orders book.now)) from result }
{
    let (count, _) = book.count();
    (from..count)
        .map_while(|place| placed_at(book, side, place))
        .find(|placed| settings.active(placed.order.price))
}

// The order at a place in rank, counted from 0.
fn placed_at<B: Book>(book: &B, side: Side, place: usize) -> Option<Placed>
    requires { place + 1 < 2 ^ 64 }
    ensures { StandsAt (ranked side (B.orders book.now)) place result }
{
    book.nth(side, place + 1)
        .map(|order| Placed { place, order })
}
