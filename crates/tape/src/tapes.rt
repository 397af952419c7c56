use model::TapeRecord;

// A lent tape with its next free place.
// A slice with a count, and no Vec: the tape is the caller's, and a session allocates nothing.
#[derive(Debug, Drop)]
pub struct Tape<'a> {
    pub places: &'a mut [TapeRecord],
    pub next: usize,
}
