use crate::words::Words;
use choices::Table;
use model::Refusal;
use std::alloc::{AllocError, Global};

// How many places the tape of a day has, and its scratch: one for each price.
pub(crate) const TAPE: usize = 64;

pub(crate) const PRICES: usize = 41;

// The page as it is written, the table that its books are kept in, and where memory comes from.
#[derive(Drop)]
pub(crate) struct Page {
    pub(crate) heap: Global,
    pub(crate) table: Table,
    pub(crate) text: String,
}

impl Page {
    pub(crate) fn new(heap: Global, table: Table) -> Page {
        Page {
            heap,
            table,
            text: String::new(heap),
        }
    }

    // A refusal in a line. `opening` shows the number alone, so each program has a line of its own.
    pub(crate) fn show_refusal(&mut self, refusal: Refusal) -> Result<(), AllocError> {
        writeln!(self.text, "  {}", Words(refusal))
    }
}
