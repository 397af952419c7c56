ghost use Rattle.grid.specs.Views.{plain as plain_settings};
ghost use Rattle.meeting.specs.Plans.{Planned, meeting_of};

use crate::next::{Next, next_met};
use crate::plans::Plan;
use book::Book;
use grid::Settings;
use model::Entry;
use walking::Placed;

// What an order would meet. It takes the active orders of the other side in rank.
pub fn plan<B: Book>(book: &B, settings: &Settings, reference: u32, entry: Entry) -> Plan
    ensures { Planned (B.orders book.now) (meeting_of (plain_settings settings.now) reference entry.side entry.price entry.quantity (B.orders book.now)) result }
{
    let mut plan = Plan {
        fills: 0,
        removed: 0,
        remaining: entry.quantity,
        interrupted: false,
        last_price: None,
    };
    let mut from = 0;
    // a loop, and no while let: it has two ends that differ
    'walk: loop {
        match next_met(book, settings, reference, entry, plan.remaining, from) {
            Next::Trade(Placed { place, order }) => {
                plan = plan.with_fill(order);
                from = place + 1;
            }
            Next::Interruption => {
                return Plan {
                    interrupted: true,
                    ..plan
                };
            }
            Next::Nothing => return plan,
        }
    }
}
