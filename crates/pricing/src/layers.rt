ghost use Rattle.model.specs.Rules.{most_traded, least_surplus};
ghost use Rattle.std.proofs.Common.{rules};

use crate::bottom::Middle;
use crate::choice::BestEnds;
use crate::rule::PriceRule;
use model::Point;

// Two layers, and no generic one over a criterion: each criterion would be a type with its definition, as long as a layer.
// No order of pairs either: the rule below is asked only where the points are equal. The target is that of the rule below, in both.

// The point that trades more goes ahead; points that trade as much go to the rule below.
#[derive(Clone, Copy, Debug, PartialEq, Eq)]
pub struct MostTraded<R> {
    pub below: R,
}

impl<R: PriceRule> PriceRule for MostTraded<R> {
    ghost rule = { λ r. most_traded (R.rule r.below) };

    ghost asymmetric = { Prim.search rules };

    ghost transitive = { Prim.search rules };

    ghost bounded = { Prim.search rules };

    fn goes_ahead(&self, a: Point, b: Point) -> bool {
        let (x, y) = (a.traded(), b.traded());
        x > y || (x == y && self.below.goes_ahead(a, b))
    }

    fn target(&self, ends: BestEnds, indicative: u32) -> u64 {
        self.below.target(ends, indicative)
    }
}

// The point with the smaller surplus goes ahead; points with the same surplus go to the rule below.
#[derive(Clone, Copy, Debug, PartialEq, Eq)]
pub struct LeastSurplus<R> {
    pub below: R,
}

impl<R: PriceRule> PriceRule for LeastSurplus<R> {
    ghost rule = { λ r. least_surplus (R.rule r.below) };

    ghost asymmetric = { Prim.search rules };

    ghost transitive = { Prim.search rules };

    ghost bounded = { Prim.search rules };

    fn goes_ahead(&self, a: Point, b: Point) -> bool {
        let (x, y) = (a.surplus(), b.surplus());
        x < y || (x == y && self.below.goes_ahead(a, b))
    }

    fn target(&self, ends: BestEnds, indicative: u32) -> u64 {
        self.below.target(ends, indicative)
    }
}

// Least surplus, and then the middle: one of the two rules of the markets below most traded.
pub const BALANCED: LeastSurplus<Middle> = LeastSurplus { below: Middle };
