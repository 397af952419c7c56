ghost use Rattle.std.specs.Prelude.{◌+◌, ◌≤◌, length};
ghost use Rattle.book.specs.Meaning.{max_capacity};

use model::Order;

// The two sides in one lent slice: the buys in rank from its front, the sells in rank from its back. They do not meet.
#[derive(Drop)]
pub(crate) struct Sides<'a> {
    // lent rows with two counts, and no Vec, since a book allocates nothing
    pub(crate) rows: &'a mut [Order],
    pub(crate) buys: usize,
    pub(crate) sells: usize,
    ghost fits: { buys + sells ≤ length rows.now },
    ghost small: { length rows.now ≤ max_capacity },
}
