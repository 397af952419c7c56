ghost use Rattle.model.specs.Rank.{opposite, ranked};
ghost use Rattle.grid.specs.Views.{plain as plain_settings};
ghost use Rattle.meeting.specs.Meetings.{Meets};

use crate::limits::limit;
use book::Book;
use grid::{Settings, within};
use model::Entry;
use walking::{Placed, first_active};

// What an order meets next: an order that it trades with and its place in rank, an interruption, or nothing more.
// An enum, and no option: an interruption is neither an order nor nothing, and a plan tells the two apart.
#[derive(Clone, Copy, Debug, PartialEq, Eq)]
pub(crate) enum Next {
    Trade(Placed),
    Interruption,
    Nothing,
}

// What an order of which so much remains meets from a place in rank on, counted from 0.
// Its plan and its fills both ask this, so they agree at each order.
// The settings and the reference price stay two: a struct of the band would not spare the settings, which the walk needs.
#[tactic(auto, using(crate::proofs::Done::meet_done))]
pub(crate) fn next_met<B: Book>(
    book: &B,
    settings: &Settings,
    reference: u32,
    entry: Entry,
    remaining: u64,
    from: usize,
) -> Next
    ensures { Meets (plain_settings settings.now) reference entry.side entry.price remaining (ranked (opposite entry.side) (B.orders book.now)) from result }
{
    if remaining == 0 {
        return Next::Nothing;
    }
    let Some(met) = first_active(book, settings, entry.side.opposite(), from) else {
        return Next::Nothing;
    };
    let price = limit(met.order.price);
    if !entry.price.allows(entry.side, price) {
        return Next::Nothing;
    }
    if !within(settings.static_band, reference, price) {
        return Next::Interruption;
    }
    Next::Trade(met)
}
