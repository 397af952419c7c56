use walking::Placed;

// How far a count over the active orders of a side in rank has come: the one that is next, and what is left of those before it.
#[derive(Clone, Copy)]
pub(crate) struct Mark {
    pub(crate) next: Option<Placed>,
    pub(crate) total: u64,
}
