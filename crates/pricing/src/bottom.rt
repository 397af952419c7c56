ghost use Rattle.model.specs.Rules.{nearest, middle};
ghost use Rattle.std.proofs.Common.{rules};

use crate::choice::BestEnds;
use crate::rule::PriceRule;
use model::Point;

// Two rules at the bottom that differ in the target. That no point goes ahead is written in both: as a default of the trait
// it would have to meet the trait's promise for every rule, and some rules put a point ahead.

// No point goes ahead, and the target is the indicative price.
#[derive(Clone, Copy, Debug, PartialEq, Eq)]
pub struct Nearest;

impl PriceRule for Nearest {
    ghost rule = { λ _. nearest };

    ghost asymmetric = { Prim.search rules };

    ghost transitive = { Prim.search rules };

    ghost bounded = { Prim.search rules };

    fn goes_ahead(&self, _a: Point, _b: Point) -> bool {
        false
    }

    fn target(&self, _ends: BestEnds, indicative: u32) -> u64 {
        2 * indicative as u64
    }
}

// No point goes ahead, and the target is the end towards which both ends press, or else the middle.
#[derive(Clone, Copy, Debug, PartialEq, Eq)]
pub struct Middle;

impl PriceRule for Middle {
    ghost rule = { λ _. middle };

    ghost asymmetric = { Prim.search rules };

    ghost transitive = { Prim.search rules };

    ghost bounded = { Prim.search rules };

    fn goes_ahead(&self, _a: Point, _b: Point) -> bool {
        false
    }

    fn target(&self, ends: BestEnds, _indicative: u32) -> u64 {
        let BestEnds { lowest, highest } = ends;
        if lowest.demand > lowest.supply && highest.demand > highest.supply {
            2 * highest.price as u64
        } else if lowest.demand < lowest.supply && highest.demand < highest.supply {
            2 * lowest.price as u64
        } else {
            lowest.price as u64 + highest.price as u64
        }
    }
}
