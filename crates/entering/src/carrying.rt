ghost use Rattle.std.specs.Prelude.{◌≡◌, ◌+◌, ◌<◌, ◌≤◌, ◌++◌, map, length};
ghost use Rattle.model.specs.Numbers.{max_number};
ghost use Rattle.model.specs.Trading.{after_fills, trade_of};
ghost use Rattle.tape.specs.Tapes.{room, Recorded};
ghost use Rattle.grid.specs.Views.{plain as plain_settings};
ghost use Rattle.meeting.specs.Plans.{meeting_of};
ghost use Rattle.entering.specs.Courses.{records_by};
ghost use Rattle.entering.specs.Questions.{records_of};
ghost use Rattle.entering.specs.Accepted.{some_fills, own_record, offered, settled_orders};

use crate::courses::{Course, Fate};
use book::{Book, StandingOrder};
use grid::Settings;
use meeting::carry_out;
use model::{DayState, Entry, Order, TapeRecord};
use tape::Tape;

// Puts what remains of an order into the book.
fn stand<B: Book>(book: &mut B, rest: Order)
    ensures orders { B.orders book.new ≡ offered (B.capacity book.old) (B.orders book.old) rest }
    ensures capacity { B.capacity book.new ≡ B.capacity book.old }
{
    if let Ok(order) = StandingOrder::try_from(rest) {
        book.add(order);
    }
}

// What remains of an order stands, or its withdrawal is written.
fn settle<B: Book>(book: &mut B, number: u64, entry: Entry, course: Course, tape: &mut Tape)
    requires { records_by course.fate ≤ room tape.old }
    ensures orders { B.orders book.new ≡ settled_orders (B.capacity book.old) (B.orders book.old) number entry course.remaining course.fate }
    ensures capacity { B.capacity book.new ≡ B.capacity book.old }
    ensures tape { Recorded tape.old tape.new (own_record number course.remaining course.fate) }
{
    match course.fate {
        Fate::Stands(price) => {
            // no conversion of the entry: price and quantity are what became of them
            let rest = Order {
                number,
                member: entry.member,
                side: entry.side,
                price,
                left: course.remaining,
            };
            stand(book, rest);
        }
        Fate::Withdrawn(reason) => tape.write(TapeRecord::Withdrawal {
            number,
            quantity: course.remaining,
            reason,
        }),
        Fate::Traded => {}
    }
}

// Carries out the course of an accepted order: its fills, if it has any, then what becomes of what remains.
pub(crate) fn carry<B: Book>(
    book: &mut B,
    settings: &Settings,
    day: &DayState,
    entry: Entry,
    course: Course,
    tape: &mut Tape,
)
    requires number { day.now.last < max_number }
    requires fills { 0 < course.fills → course.fills ≡ length (meeting_of (plain_settings settings.now) day.now.reference entry.side entry.price entry.quantity (B.orders book.old)).fills }
    requires places { records_of course ≤ room tape.old }
    ensures orders { B.orders book.new ≡ settled_orders (B.capacity book.old) (after_fills (some_fills course.fills (meeting_of (plain_settings settings.now) day.now.reference entry.side entry.price entry.quantity (B.orders book.old)).fills) (B.orders book.old)) (day.now.last + 1) entry course.remaining course.fate }
    ensures capacity { B.capacity book.new ≡ B.capacity book.old }
    ensures tape { Recorded tape.old tape.new (map (trade_of entry.side (day.now.last + 1)) (some_fills course.fills (meeting_of (plain_settings settings.now) day.now.reference entry.side entry.price entry.quantity (B.orders book.old)).fills) ++ own_record (day.now.last + 1) course.remaining course.fate) }
{
    let number = day.last + 1;
    if course.fills > 0 {
        carry_out(book, settings, day.reference, entry, number, tape);
    }
    settle(book, number, entry, course, tape);
}
