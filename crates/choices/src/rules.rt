ghost use Rattle.std.proofs.Common.{rules};
ghost use Rattle.choices.specs.Rules.{chosen};

use model::Point;
use pricing::{BALANCED, BestEnds, Nearest, PriceRule};

// Which rule finds a price below most traded: the nearest to the indicative price, or least surplus and then the middle.
// An arm for each in each method: the rules are two types, and a library may not hand out a `dyn`.
#[derive(Clone, Copy, Debug, PartialEq, Eq)]
pub enum Rule {
    Nearest,
    Balanced,
}

impl PriceRule for Rule {
    ghost rule = { chosen };

    ghost asymmetric = { Prim.search rules };

    ghost transitive = { Prim.search rules };

    ghost bounded = { Prim.search rules };

    fn goes_ahead(&self, a: Point, b: Point) -> bool {
        match self {
            Rule::Nearest => Nearest.goes_ahead(a, b),
            Rule::Balanced => BALANCED.goes_ahead(a, b),
        }
    }

    fn target(&self, ends: BestEnds, indicative: u32) -> u64 {
        match self {
            Rule::Nearest => Nearest.target(ends, indicative),
            Rule::Balanced => BALANCED.target(ends, indicative),
        }
    }
}
