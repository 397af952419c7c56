use arrival::ArrivalBook;
use ranked::RankedBook;

// Which table a book is kept in.
#[derive(Clone, Copy, Debug, PartialEq, Eq)]
pub enum Table {
    Arrival,
    Ranked,
}

// A book in either table.
#[derive(Drop)]
pub enum TableBook<'a> {
    Arrival(ArrivalBook<'a>),
    Ranked(RankedBook<'a>),
}
