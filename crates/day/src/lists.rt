use crate::page::{PRICES, Page, TAPE};
use book::Book;
use desk::{DayEnd, trade_day};
use grid::Terms;
use model::{Answer, Call, Point, Refusal, TapeRecord};
use pricing::PriceRule;
use samples::TERMS;
use std::alloc::{AllocError, Global};

// A day that was run as one list: what it came to, its answers, its tape and its curve.
#[derive(Drop)]
pub(crate) struct Listed {
    pub(crate) end: Result<DayEnd, Refusal>,
    pub(crate) answers: Vec<Answer>,
    pub(crate) tape: Vec<TapeRecord>,
    pub(crate) scratch: Vec<Point>,
}

// Runs a day as one list.
pub(crate) fn run_list<B: Book + Drop, R: PriceRule + Drop>(
    heap: Global,
    terms: Terms,
    book: B,
    rule: R,
    calls: &[Call],
) -> Result<Listed, AllocError> {
    let mut answers = vec![in heap; Answer::BLANK; calls.len()]?;
    let mut tape = vec![in heap; TapeRecord::BLANK; TAPE]?;
    let mut scratch = vec![in heap; Point::BLANK; PRICES]?;
    let end = trade_day(
        terms,
        book,
        rule,
        calls,
        &mut answers,
        &mut tape,
        &mut scratch,
    );
    Ok(Listed {
        end,
        answers,
        tape,
        scratch,
    })
}

// The day once more as one list: what it came to, and whether its tape is the same as that of the day that was told.
pub(crate) fn show_list<B: Book + Drop, R: PriceRule + Drop>(
    page: &mut Page,
    book: B,
    rule: R,
    calls: &[Call],
    told: &[TapeRecord],
) -> Result<(), AllocError> {
    let listed = run_list(page.heap, TERMS, book, rule, calls)?;
    match listed.end {
        Ok(end) => show_end(page, end, listed.tape.as_slice() == told),
        Err(why) => page.show_refusal(why),
    }
}

fn show_end(page: &mut Page, end: DayEnd, same: bool) -> Result<(), AllocError> {
    let calls = end.calls;
    let used = end.used;
    let standing = end.standing;
    let reference = end.reference;
    let same = if same { "the same" } else { "ANOTHER" };
    writeln!(
        page.text,
        "As one list: {calls} calls, {used} records, {same} tape, last reference price {reference}, {standing} orders stand."
    )?;
    writeln!(page.text)
}
