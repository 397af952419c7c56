// Prints some small books, their curves, and the opening price under the rules of the markets.
#![tactic(auto)]

mod page;

use grid::Settings;
use page::{show, show_refusal, show_settings};
use samples::{BOOKS, FIRST_LISTING, Sample, TERMS, UNLISTED};
use std::io;

fn show_books(rt: &HostRuntime, settings: &Settings) -> io::Result<()> {
    for Sample { title, orders } in BOOKS {
        show(rt, title, settings, orders)?;
    }
    Ok(())
}

fn main(rt: HostRuntime) -> io::Result<()> {
    match Settings::try_from(TERMS) {
        Ok(settings) => {
            show_settings(&rt, &settings)?;
            show_books(&rt, &settings)?;
        }
        Err(refusal) => show_refusal(&rt, refusal)?,
    }
    println!(rt; "{FIRST_LISTING}")?;
    match Settings::try_from(UNLISTED) {
        Ok(settings) => show(&rt, "Settings", &settings, &[]),
        Err(refusal) => show_refusal(&rt, refusal),
    }
}
