// Why a slice of orders has no curve. Not `Refusal`, which numbers what a session answers: that the scratch is too short
// stands there too, but the orders of a session never add up to a total that is too large.
#[derive(Clone, Copy, Debug, PartialEq, Eq)]
pub enum Fault {
    // the quantities of all orders add up to more than a 64-bit number
    QuantityTooLarge,
    // the grid has more prices than the slice has places
    ScratchTooShort,
}
