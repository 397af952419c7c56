use model::Side;

// Where an order stands: its side, and how many orders stand before it there.
// That one stands there is required where it is used, and no fact of the type: it holds of one table at one time.
#[derive(Clone, Copy)]
pub(crate) struct Position {
    pub(crate) side: Side,
    pub(crate) index: usize,
}
