ghost use Rattle.std.specs.Prelude.{◌≡◌};
ghost use Rattle.model.specs.Entry.{phase_after};
ghost use Rattle.model.specs.Views.{view};
ghost use Rattle.grid.specs.Views.{plain};
ghost use Rattle.entering.specs.Courses.{untraded, market_fate, fate_of, filled_by, inactive_course, active_course};
ghost use Rattle.entering.specs.Accepted.{Runs};

use crate::courses::{Course, Fate};
use book::Book;
use grid::Settings;
use meeting::{Plan, plan};
use model::{Condition, DayState, Entry, OrderPrice, Phase, Reason};

// An interruption returns to pre-opening.
fn phase_after(interrupted: bool) -> Phase
    ensures { result ≡ phase_after interrupted }
{
    if interrupted {
        Phase::PreOpening
    } else {
        Phase::Trading
    }
}

// Nothing of the order trades.
fn untraded(entry: Entry, fate: Fate, phase: Phase) -> Course
    ensures { result ≡ untraded entry fate phase }
{
    Course {
        fills: 0,
        removed: 0,
        remaining: entry.quantity,
        fate,
        phase,
    }
}

// What becomes of a market order that is not filled whole: it stands at its last fill's price, or as market where
// an interruption came first; with nothing opposite it is withdrawn.
fn market_fate(plan: Plan) -> Fate
    ensures { result ≡ market_fate plan.last_price plan.interrupted }
{
    match (plan.last_price, plan.interrupted) {
        (Some(price), _) => Fate::Stands(OrderPrice::Limit(price)),
        (None, true) => Fate::Stands(OrderPrice::Market),
        (None, false) => Fate::Withdrawn(Reason::NothingOpposite),
    }
}

// What becomes of what a plan leaves of an order.
fn fate_of(entry: Entry, plan: Plan) -> Fate
    ensures { result ≡ fate_of entry plan }
{
    if plan.remaining == 0 {
        return Fate::Traded;
    }
    match (entry.condition, entry.price) {
        (Condition::Plain, OrderPrice::Market) => market_fate(plan),
        (Condition::Plain, OrderPrice::Limit(_)) => Fate::Stands(entry.price),
        (Condition::FillOrKill | Condition::ImmediateOrCancel, _) => {
            Fate::Withdrawn(Reason::ConditionUnmet)
        }
    }
}

// The order is filled by its plan.
fn filled_by(entry: Entry, plan: Plan) -> Course
    ensures { result ≡ filled_by entry plan }
{
    Course {
        fills: plan.fills,
        removed: plan.removed,
        remaining: plan.remaining,
        fate: fate_of(entry, plan),
        phase: phase_after(plan.interrupted),
    }
}

// An inactive order in trading stands, or is withdrawn if it has a condition.
fn inactive_course(entry: Entry) -> Course
    ensures { result ≡ inactive_course entry entry.condition }
{
    let fate = match entry.condition {
        Condition::Plain => Fate::Stands(entry.price),
        Condition::FillOrKill | Condition::ImmediateOrCancel => {
            Fate::Withdrawn(Reason::ConditionUnmet)
        }
    };
    untraded(entry, fate, Phase::Trading)
}

// An active order is filled by its plan. Fill-or-kill is so only if all of it is.
fn active_course(entry: Entry, plan: Plan) -> Course
    ensures { result ≡ active_course entry entry.condition plan }
{
    if entry.condition == Condition::FillOrKill && plan.remaining > 0 {
        untraded(
            entry,
            Fate::Withdrawn(Reason::ConditionUnmet),
            Phase::Trading,
        )
    } else {
        filled_by(entry, plan)
    }
}

// What an order does if it is accepted. Nothing is altered.
pub(crate) fn course_of<B: Book>(
    book: &B,
    settings: &Settings,
    day: &DayState,
    entry: Entry,
) -> Course
    ensures { Runs (view (plain settings.now) day.now (B.orders book.now) (B.capacity book.now)) entry result }
{
    if day.phase != Phase::Trading {
        return untraded(entry, Fate::Stands(entry.price), day.phase);
    }
    if !settings.active(entry.price) {
        return inactive_course(entry);
    }
    let plan = plan(book, settings, day.reference, entry);
    active_course(entry, plan)
}
