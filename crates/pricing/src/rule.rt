ghost use Rattle.std.specs.Prelude.{◌≡◌, ℕ, ◌≤◌, true, false, ◌||◌};
ghost use Rattle.model.specs.declared.types.Point.{Point};
ghost use Rattle.model.specs.Numbers.{max_price};
ghost use Rattle.model.specs.Rules.{Rule};

use crate::choice::BestEnds;
use model::Point;

// Which of two points goes ahead, and the target among the best ones.
pub trait PriceRule {
    // The rule that a value stands for.
    ghost rule: { Self → Rule };

    // Whether point a goes ahead of point b.
    // Two points and no pair: which of them goes ahead is the question.
    fn goes_ahead(&self, a: Point, b: Point) -> bool
        ensures { result ≡ (rule self.now).ahead a b };

    // The doubled price that the called price is to be near, from the ends of the best points.
    fn target(&self, ends: BestEnds, indicative: u32) -> u64
        ensures { result ≡ (rule self.now).target ends.lowest ends.highest indicative };

    // No two points go ahead of each other.
    ghost asymmetric: { (r : Self) (a b : Point) → (rule r).ahead a b ≡ true → (rule r).ahead b a ≡ false };

    // Of two points, one of which goes ahead, a third is behind the first or ahead of the second.
    ghost transitive: { (r : Self) (a b c : Point) → (rule r).ahead a b ≡ true → ((rule r).ahead a c || (rule r).ahead c b) ≡ true };

    // The target of prices within their limit is at most 200000.
    ghost bounded: { (r : Self) (lo hi : Point) (i : ℕ) → lo.price ≤ max_price → hi.price ≤ max_price → i ≤ max_price → (rule r).target lo hi i ≤ 200000 };
}
