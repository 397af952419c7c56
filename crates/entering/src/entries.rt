ghost use Rattle.std.specs.Prelude.{◌≡◌, ◌≤◌, true, length, OnErr};
ghost use Rattle.model.specs.Orders.{Standing};
ghost use Rattle.model.specs.State.{takes_orders};
ghost use Rattle.model.specs.Views.{view, Came};
ghost use Rattle.model.specs.Entry.{enter as entered};
ghost use Rattle.grid.specs.Views.{plain};

use crate::carrying::carry;
use crate::deciding::decide;
use book::Book;
use grid::Settings;
use model::{DayState, Entry, Refusal, TapeRecord};
use tape::Tape;

// Enters an order, and answers its number. It is refused by its first question answered no, and then nothing is altered.
// Settings, day and tape are three parameters, here and below: the first is read, the second is written last, and the third has another owner.
pub fn enter<B: Book>(
    book: &mut B,
    settings: &Settings,
    day: &mut DayState,
    entry: Entry,
    tape: &mut [TapeRecord],
) -> Result<u64, Refusal>
    requires { takes_orders day.old.phase ≡ true }
    ensures came { Standing 0 (B.orders book.old) day.old.last → 1 ≤ day.old.reference → Came (entered (view (plain settings.now) day.old (B.orders book.old) (B.capacity book.old)) (length tape.old) entry) result (view (plain settings.now) day.new (B.orders book.new) (B.capacity book.new)) tape.old day.old.used tape.new }
    ensures reference { day.new.reference ≡ day.old.reference }
    ensures phase { takes_orders day.new.phase ≡ true }
    ensures room { B.capacity book.new ≡ B.capacity book.old }
    ensures refused { OnErr result ((B.orders book.new ≡ B.orders book.old) × (day.new ≡ day.old) × (tape.new ≡ tape.old)) }
{
    let course = decide(book, settings, day, entry, tape.len())?;
    let mut out = Tape::new(tape, day.used);
    carry(book, settings, day, entry, course, &mut out);
    day.phase = course.phase;
    day.last += 1;
    day.used = out.next;
    Ok(day.last)
}
