ghost use Rattle.std.specs.Prelude.{◌≡◌, ◌⊎◌, min, [], map, length};
ghost use Rattle.model.specs.Making.{make_refusal, made};
ghost use Rattle.grid.specs.Views.{given};
ghost use Rattle.book.specs.Meaning.{max_capacity};
ghost use Rattle.choices.specs.Rules.{chosen};
ghost use Rattle.crossing.specs.Refused.{refused};
ghost use Rattle.crossing.specs.Days.{outcomes, Crossed, Unwritten};
ghost use Rattle.crossing.specs.Turning.{call_of, rule_of};

use crossing::{RawAnswer, RawCall, RawEnd, RawOrder, RawPoint, RawRecord, cross_day};
use std::alloc::Global;

// A whole day on plain numbers: `crossing::cross_day`, which says what it answers and writes.
#[unsafe(no_mangle)]
pub extern "C" fn nogdrut_day(
    heap: Global,
    table: u32,
    rule: u32,
    tick: u32,
    indicative: u32,
    absolute: u32,
    static_band: u32,
    last: u64,
    capacity: usize,
    calls: &[RawCall],
    answers: &mut [RawAnswer],
    tape: &mut [RawRecord],
    scratch: &mut [RawPoint],
    standing: &mut [RawOrder],
    end: &mut RawEnd,
) -> u64
    ensures { let g = given tick indicative absolute static_band in
        let refusal = make_refusal g last [] in
        let s = made g last [] (min capacity max_capacity) in
        let cs = map call_of calls.now in
        let os = outcomes (chosen (rule_of rule)) refusal s cs (length answers.old) (length tape.old) (length scratch.old) in
        ((result ≡ refused g last (length calls.now) (length answers.old)) × Crossed refusal s cs os answers.old answers.new tape.old tape.new scratch.old scratch.new standing.old standing.new end.old end.new)
        ⊎ ((result ≡ 99) × Unwritten answers.old answers.new tape.old tape.new scratch.old scratch.new standing.old standing.new end.old end.new) }
{
    cross_day(
        heap,
        table,
        rule,
        tick,
        indicative,
        absolute,
        static_band,
        last,
        capacity,
        calls,
        answers,
        tape,
        scratch,
        standing,
        end,
    )
}

// Does nothing: the cost of a call across the boundary.
#[unsafe(no_mangle)]
pub extern "C" fn nogdrut_noop() -> u64
    ensures { result ≡ 0 }
{
    0
}
