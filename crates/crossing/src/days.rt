ghost use Rattle.std.specs.Prelude.{◌≡◌, ◌⊎◌, min, [], map, length, MatchResult, IfOk, vec_len};
ghost use Rattle.model.specs.Numbers.{code, no_refusal};
ghost use Rattle.model.specs.Making.{make_refusal, made};
ghost use Rattle.grid.specs.Views.{given, offered};
ghost use Rattle.book.specs.Meaning.{max_capacity};
ghost use Rattle.choices.specs.Rules.{chosen};
ghost use Rattle.session.specs.Views.{state};
ghost use Rattle.crossing.specs.Refused.{refused};
ghost use Rattle.crossing.specs.Days.{outcomes, Traded, Crossed, Unwritten};
ghost use Rattle.crossing.specs.Shown.{end_of, orders_shown};
ghost use Rattle.crossing.specs.Turning.{call_of, table_of, rule_of};

use crate::memory::Memory;
use crate::raw::{RawAnswer, RawCall, RawEnd, RawOrder, RawPoint, RawRecord};
use crate::turning::phase_number;
use book::{Book, MAX_CAPACITY};
use choices::{Rule, Table};
use grid::Terms;
use model::{Order, Refusal};
use pricing::PriceRule;
use session::{Session, run};
use std::alloc::{AllocError, Global};

// A day that is done, and one for which there is no memory. Numbers, since they cross to C, as those of tables and rules do.
const DONE: u64 = 0;

const NO_MEMORY: u64 = 99;

// Makes a session over a table (0 arrival, else ranked) and a rule (0 nearest, else least surplus over middle), and runs a list on it.
// Answers 0, or the number of the refusal, or 99 where there is no memory, and then nothing is written.
// Else all places for answers, tape and scratch are written back, those that no call wrote as the engine read them.
// Standing orders and the end are shown where the session is made.
// Fifteen parameters, here and in the function under a name of C: C hands over each by itself.
pub fn cross_day(
    heap: Global,
    table: u32,
    rule: u32,
    tick: u32,
    indicative: u32,
    absolute: u32,
    static_band: u32,
    last: u64,
    capacity: usize,
    calls: &[RawCall],
    answers: &mut [RawAnswer],
    tape: &mut [RawRecord],
    scratch: &mut [RawPoint],
    standing: &mut [RawOrder],
    end: &mut RawEnd,
) -> u64
    ensures { let g = given tick indicative absolute static_band in
        let refusal = make_refusal g last [] in
        let s = made g last [] (min capacity max_capacity) in
        let cs = map call_of calls.now in
        let os = outcomes (chosen (rule_of rule)) refusal s cs (length answers.old) (length tape.old) (length scratch.old) in
        ((result ≡ refused g last (length calls.now) (length answers.old)) × Crossed refusal s cs os answers.old answers.new tape.old tape.new scratch.old scratch.new standing.old standing.new end.old end.new)
        ⊎ ((result ≡ 99) × Unwritten answers.old answers.new tape.old tape.new scratch.old scratch.new standing.old standing.new end.old end.new) }
{
    let terms = Terms {
        tick,
        indicative,
        absolute,
        static_band,
        last_number: last,
    };
    let Ok(mut memory) = Memory::new(heap, calls, answers, tape, scratch) else {
        return NO_MEMORY;
    };
    let Ok(mut rows) = blank_rows(heap, capacity) else {
        return NO_MEMORY;
    };
    let book = table_of(table).empty(&mut rows);
    let outcome = run_day(terms, book, rule_of(rule), &mut memory, standing, end);
    memory.give_back(answers, tape, scratch);
    match outcome {
        Ok(()) => DONE,
        Err(why) => u64::from(u8::from(why)),
    }
}

// Rows for a table of this capacity, at most as many as a table uses.
// Out of line: where this is a part of the function above, each row is filled in pieces, at twice the time.
#[inline(never)]
fn blank_rows(heap: Global, capacity: usize) -> Result<Vec<Order>, AllocError>
    ensures { IfOk result (λ rows. vec_len rows ≡ min capacity max_capacity) }
{
    Vec::from_elem(heap, Order::BLANK, capacity.min(MAX_CAPACITY))
}

// The table and the rule of a number from C. No `TryFrom`, since every number names one, and no `From`: neither type is of this crate.
// Two functions, since each names the values of another type.
fn table_of(number: u32) -> Table
    ensures { result ≡ table_of number }
{
    match number {
        0 => Table::Arrival,
        _ => Table::Ranked,
    }
}

fn rule_of(number: u32) -> Rule
    ensures { result ≡ rule_of number }
{
    match number {
        0 => Rule::Nearest,
        _ => Rule::Balanced,
    }
}

// Not `desk::trade_day`, which spends the session: here its end and its orders are shown, of a refused list too.
fn run_day<B: Book + Drop, R: PriceRule + Drop>(
    terms: Terms,
    book: B,
    rule: R,
    memory: &mut Memory,
    standing: &mut [RawOrder],
    end: &mut RawEnd,
) -> Result<(), Refusal>
    requires { B.orders book ≡ [] }
    ensures refusal { MatchResult result (λ _. refused (offered terms) terms.last_number (vec_len memory.old.calls) (vec_len memory.old.answers) ≡ no_refusal) (λ e. refused (offered terms) terms.last_number (vec_len memory.old.calls) (vec_len memory.old.answers) ≡ code e) }
    ensures day { let refusal = make_refusal (offered terms) terms.last_number [] in
        let s = made (offered terms) terms.last_number [] (B.capacity book) in
        let os = outcomes (R.rule rule) refusal s memory.old.calls.items (length memory.old.answers.items) (length memory.old.tape.items) (length memory.old.scratch.items) in
        Traded refusal s memory.old.calls.items os memory.old.answers.items memory.new.answers.items memory.old.tape.items memory.new.tape.items memory.old.scratch.items memory.new.scratch.items standing.old standing.new end.old end.new }
    ensures places { (length memory.new.answers.items ≡ length memory.old.answers.items) × (length memory.new.tape.items ≡ length memory.old.tape.items) × (length memory.new.scratch.items ≡ length memory.old.scratch.items) }
{
    let mut session = Session::new(terms, book, rule).map_err(|(why, _, _)| why)?;
    let outcome = run(
        &mut session,
        &memory.calls,
        &mut memory.answers,
        &mut memory.tape,
        &mut memory.scratch,
    );
    *end = RawEnd::from(&session);
    show_orders(session.book(), standing);
    outcome.map(|_| ())
}

// The state of a session after its list.
impl<B: Book, R: PriceRule> From<&Session<B, R>> for RawEnd {
    ghost from_gives = { λ session end. end ≡ end_of (state B.orders B.capacity session.now) };

    fn from(session: &Session<B, R>) -> RawEnd {
        let day = session.day();
        let (standing, _) = session.book().count();
        RawEnd {
            phase: phase_number(day.phase),
            reference: u64::from(day.reference),
            last: day.last,
            used: day.used as u64,
            standing: standing as u64,
        }
    }
}

// The standing orders by number, as many as there are places.
fn show_orders<B: Book>(book: &B, places: &mut [RawOrder])
    ensures { places.new ≡ orders_shown (B.orders book.now) places.old }
{
    // a loop, and no zip: the check does not cover one of places that are lent with orders that keep their bounds
    let mut last = 0;
    for place in places.iter_mut() {
        let Some(order) = book.after(last) else {
            return;
        };
        *place = RawOrder::from(order);
        last = order.number;
    }
}
