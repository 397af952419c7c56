use crate::entries::entered;
use crate::lists::{Listed, run_list};
use crate::page::Page;
use crate::words::Words;
use chart::Chart;
use grid::Terms;
use model::{Call, Order};
use pricing::{BALANCED, Nearest, PriceRule};
use samples::{BOOKS, BY_BALANCED, BY_NEAREST, FIRST_LISTING, Sample, TERMS, UNLISTED};
use std::alloc::AllocError;

// The opening prices of some small books under both rules.
pub(crate) fn show_openings(page: &mut Page) -> Result<(), AllocError> {
    writeln!(
        page.text,
        "Opening prices: tick 1, indicative price 100, prices from 80 to 120. # trades and - is left over, a mark for every 5."
    )?;
    writeln!(page.text)?;
    for Sample { title, orders } in BOOKS {
        show_opening(page, title, TERMS, orders)?;
    }
    show_opening(page, FIRST_LISTING, UNLISTED, &[])
}

// Some orders, their curve, and what an auction of them comes to under both rules.
// A page of its own beside that of `opening`: there `preview` finds the price of a slice of orders,
// here a session runs them as a list, and its last answer and its end tell the price.
fn show_opening(
    page: &mut Page,
    title: &str,
    terms: Terms,
    orders: &[Order],
) -> Result<(), AllocError> {
    writeln!(page.text, "{title}")?;
    let last = [Call::BeginRandom, Call::Auction];
    let mut calls = Vec::with_capacity(page.heap, orders.len() + last.len())?;
    for order in orders {
        let call = entered(*order);
        writeln!(page.text, "  {}", Words(call))?;
        calls.push(call)?;
    }
    calls.extend_from_slice(&last)?;
    let nearest = open(page, terms, Nearest, &calls)?;
    let balanced = open(page, terms, BALANCED, &calls)?;
    if nearest.end.is_ok() {
        write!(
            page.text,
            "{}",
            Chart {
                points: &nearest.scratch,
                indent: 10
            }
        )?;
    }
    show_price(page, BY_NEAREST, &nearest)?;
    show_price(page, BY_BALANCED, &balanced)?;
    writeln!(page.text)
}

fn open<R: PriceRule + Drop>(
    page: &Page,
    terms: Terms,
    rule: R,
    calls: &[Call],
) -> Result<Listed, AllocError> {
    let mut rows = vec![in page.heap; Order::BLANK; 8]?;
    run_list(page.heap, terms, page.table.empty(&mut rows), rule, calls)
}

// What the auction traded, the last call of its list, and the reference price after it.
// `opening` writes this line from a point, or a fault; here it is from an answer and an end, or a refusal: only the format is the same.
fn show_price(page: &mut Page, rule: &str, listed: &Listed) -> Result<(), AllocError> {
    let last = listed.answers.last();
    let traded = last.map(|answer| answer.answer).filter(|n| *n > 0);
    match (listed.end, traded) {
        (Ok(end), Some(quantity)) => {
            let price = end.reference;
            writeln!(page.text, "  {rule:<32} {quantity} at {price}")
        }
        (Ok(_), None) => writeln!(page.text, "  {rule:<32} no price"),
        (Err(why), _) => page.show_refusal(why),
    }
}
