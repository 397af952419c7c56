ghost use Rattle.std.specs.Prelude.{◌≡◌, map, length, IfOk};
ghost use Rattle.crossing.specs.Turning.{call_of, answer_of, raw_answer, record_of, raw_record, point_of, raw_point};

use crate::raw::{RawAnswer, RawCall, RawPoint, RawRecord};
use model::{Answer, Call, Point, TapeRecord};
use std::alloc::{AllocError, Global};

// What a list is lent: its calls, and places for answers, records and points, with the contents that the caller's have.
#[derive(Drop)]
pub(crate) struct Memory {
    pub(crate) calls: Vec<Call>,
    pub(crate) answers: Vec<Answer>,
    pub(crate) tape: Vec<TapeRecord>,
    pub(crate) scratch: Vec<Point>,
}

impl Memory {
    // The slices are parameters of their own, four here and three below: C lends each by itself.
    pub(crate) fn new(
        heap: Global,
        calls: &[RawCall],
        answers: &[RawAnswer],
        tape: &[RawRecord],
        scratch: &[RawPoint],
    ) -> Result<Memory, AllocError>
        ensures { IfOk result (λ m. (m.calls.items ≡ map call_of calls.now) × (m.answers.items ≡ map answer_of answers.now) × (m.tape.items ≡ map record_of tape.now) × (m.scratch.items ≡ map point_of scratch.now)) }
    {
        Ok(Memory {
            calls: copied_in(heap, calls)?,
            answers: copied_in(heap, answers)?,
            tape: copied_in(heap, tape)?,
            scratch: copied_in(heap, scratch)?,
        })
    }

    // Writes the contents back: a place that no call wrote as it was read.
    pub(crate) fn give_back(
        &self,
        answers: &mut [RawAnswer],
        tape: &mut [RawRecord],
        scratch: &mut [RawPoint],
    )
        requires answers { length answers.old ≡ length self.now.answers.items }
        requires tape { length tape.old ≡ length self.now.tape.items }
        requires scratch { length scratch.old ≡ length self.now.scratch.items }
        ensures answers { answers.new ≡ map raw_answer self.now.answers.items }
        ensures tape { tape.new ≡ map raw_record self.now.tape.items }
        ensures scratch { scratch.new ≡ map raw_point self.now.scratch.items }
    {
        copy_out(answers, &self.answers);
        copy_out(tape, &self.tape);
        copy_out(scratch, &self.scratch);
    }
}

// What a slice of plain numbers holds, in the engine's types.
// Said of any function that the conversion computes.
fn copied_in<R: Copy, T: From<R> + Drop>(heap: Global, raw: &[R]) -> Result<Vec<T>, AllocError>
    ensures { (turned : R → T) → ((one : R) (it : T) → T.from_gives one it → it ≡ turned one) → IfOk result (λ v. v.items ≡ map turned raw.now) }
{
    // the memory first, and no `collect`: that takes it part by part where the whole is not to be had
    let mut values = Vec::with_capacity(heap, raw.len())?;
    values.extend(raw.iter().map(|one| T::from(*one)))?;
    Ok(values)
}

// Writes values as plain numbers, each in its place.
fn copy_out<T: Copy, R: From<T> + Copy>(places: &mut [R], values: &[T])
    requires { length places.old ≡ length values.now }
    ensures { (turned : T → R) → ((one : T) (it : R) → R.from_gives one it → it ≡ turned one) → places.new ≡ map turned values.now }
{
    // by index, since of what a zip of places writes nothing is known
    for (i, value) in values.iter().enumerate() {
        places[i] = R::from(*value);
    }
}
