use book::StandingOrder;

// A standing order with its place in rank on its side, counted from 0.
#[derive(Clone, Copy, Debug, PartialEq, Eq)]
pub struct Placed {
    pub place: usize,
    pub order: StandingOrder,
}
