ghost use Rattle.std.specs.Prelude.{◌≡◌, ◌+◌, true};
ghost use Rattle.book.specs.Meaning.{all_below};
ghost use Rattle.ranked.specs.InRank.{meaning, InRank};

use crate::sides::Sides;

// A book in one lent slice, which keeps each side in rank, and a number that none of its orders is above:
// an order with a higher one is above all without a look at the rows.
#[derive(Drop)]
pub struct RankedBook<'a> {
    pub(crate) sides: Sides<'a>,
    pub(crate) top: u64,
    ghost in_rank: { ∥ InRank sides ∥₁ },
    ghost below: { all_below (meaning sides) (top + 1) ≡ true },
}
