ghost use Rattle.std.specs.Prelude.{◌≡◌, true};
ghost use Rattle.model.specs.State.{takes_orders};
ghost use Rattle.model.specs.Views.{view};
ghost use Rattle.grid.specs.Views.{plain};
ghost use Rattle.entering.specs.Accepted.{Decided};

use crate::courses::Course;
use crate::planning::course_of;
use crate::questions::ask_itself;
use book::Book;
use grid::Settings;
use model::{DayState, Entry, Refusal};

// The course that an order runs, or its first question answered no. Nothing is altered.
pub(crate) fn decide<B: Book>(
    book: &B,
    settings: &Settings,
    day: &DayState,
    entry: Entry,
    tape: usize,
) -> Result<Course, Refusal>
    requires { takes_orders day.now.phase ≡ true }
    ensures { Decided (view (plain settings.now) day.now (B.orders book.now) (B.capacity book.now)) tape entry result }
{
    ask_itself(settings, day, entry)?;
    let course = course_of(book, settings, day, entry);
    let (count, capacity) = book.count();
    if course.standing_after(count) > capacity {
        return Err(Refusal::CapacityReached);
    }
    day.ask_room(course.records(), tape)?;
    Ok(course)
}
