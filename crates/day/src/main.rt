// Prints a day on both tables and under both rules, and the opening prices of some small books.
#![tactic(auto)]

mod days;
mod entries;
mod lists;
mod openings;
mod page;
mod story;
mod telling;
mod totals;
mod words;

use crate::days::show_day;
use crate::openings::show_openings;
use crate::page::Page;
use choices::Table;
use pricing::{BALANCED, Nearest};
use samples::{BY_BALANCED, BY_NEAREST};
use std::alloc::Global;

// Everything that is printed, as it comes out on one of the tables.
fn whole_page(heap: Global, table: Table) -> anyhow::Result<String> {
    let mut page = Page::new(heap, table);
    show_openings(&mut page)?;
    show_day(&mut page, BY_NEAREST, Nearest)?;
    show_day(&mut page, BY_BALANCED, BALANCED)?;
    Ok(page.text)
}

fn main(rt: HostRuntime) -> anyhow::Result<()> {
    let page = whole_page(rt.alloc(), Table::Arrival)?;
    let other = whole_page(rt.alloc(), Table::Ranked)?;
    print!(rt; "{page}")?;
    if page == other {
        println!(rt; "The arrival table printed this page, and the ranked table prints the same.")?;
    } else {
        println!(rt; "The arrival table printed this page, and the ranked table prints another:")?;
        print!(rt; "{other}")?;
    }
    Ok(())
}
