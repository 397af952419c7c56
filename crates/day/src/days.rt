use crate::lists::show_list;
use crate::page::{PRICES, Page, TAPE};
use crate::story::day_calls;
use crate::telling::{Floor, tell_day};
use model::{Order, Point, TapeRecord};
use pricing::PriceRule;
use samples::TERMS;
use session::Session;

// A day under a rule: call by call, and then as one list on the same table, empty again.
pub(crate) fn show_day<R: PriceRule + Copy>(
    page: &mut Page,
    name: &str,
    rule: R,
) -> anyhow::Result<()> {
    writeln!(page.text, "A day, {name}")?;
    let calls = day_calls(page.heap)?;
    let mut rows = vec![in page.heap; Order::BLANK; 6]?;
    let tape = vec![in page.heap; TapeRecord::BLANK; TAPE]?;
    let scratch = vec![in page.heap; Point::BLANK; PRICES]?;
    let told = match Session::new(TERMS, page.table.empty(&mut rows), rule) {
        Ok(session) => {
            let floor = Floor {
                session,
                tape,
                scratch,
            };
            tell_day(page, floor, &calls)?
        }
        Err((why, _, _)) => {
            page.show_refusal(why)?;
            tape
        }
    };
    show_list(page, page.table.empty(&mut rows), rule, &calls, &told)?;
    Ok(())
}
