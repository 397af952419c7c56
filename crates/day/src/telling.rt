use crate::page::Page;
use crate::totals::show_totals;
use crate::words::{Done, Words};
use book::Book;
use chart::Chart;
use model::{Answer, Call, DayState, Point, Refusal, TapeRecord};
use pricing::PriceRule;
use session::{Session, run};

// A session with the tape and the scratch that it is lent.
#[derive(Drop)]
pub(crate) struct Floor<B: Book, R: PriceRule> {
    pub(crate) session: Session<B, R>,
    pub(crate) tape: Vec<TapeRecord>,
    pub(crate) scratch: Vec<Point>,
}

// A day as it goes: each call, what it answers, and what it writes on the tape, which is given back.
pub(crate) fn tell_day<B: Book + Drop, R: PriceRule + Drop>(
    page: &mut Page,
    mut floor: Floor<B, R>,
    calls: &[Call],
) -> anyhow::Result<Vec<TapeRecord>> {
    let mut outcomes = Vec::new(page.heap);
    show_phase(page, floor.session.day())?;
    for (i, call) in calls.iter().enumerate() {
        outcomes.push(tell_call(page, &mut floor, i, *call)?)?;
    }
    show_totals(page, floor.session.book(), calls, &outcomes, &floor.tape)?;
    let Floor {
        session: _,
        tape,
        scratch: _,
    } = floor;
    Ok(tape)
}

// One call, by its place in the day.
fn tell_call<B: Book, R: PriceRule>(
    page: &mut Page,
    floor: &mut Floor<B, R>,
    i: usize,
    call: Call,
) -> anyhow::Result<Result<u64, Refusal>> {
    let before = floor.session.day();
    let mut answer = [Answer::BLANK];
    run(
        &mut floor.session,
        &[call],
        &mut answer,
        &mut floor.tape,
        &mut floor.scratch,
    )?;
    let outcome = Result::<u64, Refusal>::try_from(answer[0])?;
    show_call(page, i, call, outcome)?;
    if outcome.is_ok() {
        show_outcome(page, floor, call, before)?;
    }
    Ok(outcome)
}

// A call in a line, with its answer or its refusal.
fn show_call(
    page: &mut Page,
    i: usize,
    call: Call,
    outcome: Result<u64, Refusal>,
) -> anyhow::Result<()> {
    let place = i.saturating_add(1);
    let text = Words(call).to_string(page.heap)?;
    match outcome {
        Ok(answer) => {
            let done = Done { call, answer };
            writeln!(page.text, "  {place:>4}  {text:<42}{done}")?;
        }
        Err(why) => {
            let refused = Words(why);
            writeln!(page.text, "  {place:>4}  {text:<42}{refused}")?;
        }
    }
    Ok(())
}

// What a call that is done wrote, an auction's curve before it, and the phase where that has changed.
fn show_outcome<B: Book, R: PriceRule>(
    page: &mut Page,
    floor: &Floor<B, R>,
    call: Call,
    before: DayState,
) -> anyhow::Result<()> {
    let after = floor.session.day();
    if call == Call::Auction {
        write!(
            page.text,
            "{}",
            Chart {
                points: &floor.scratch,
                indent: 10
            }
        )?;
    }
    for record in floor.tape.iter().take(after.used).skip(before.used) {
        writeln!(page.text, "          {}", Words(*record))?;
    }
    if before.phase != after.phase {
        show_phase(page, after)?;
    }
    Ok(())
}

fn show_phase(page: &mut Page, day: DayState) -> anyhow::Result<()> {
    let phase = day.phase;
    let reference = day.reference;
    writeln!(page.text, "{phase}, reference price {reference}")?;
    Ok(())
}
