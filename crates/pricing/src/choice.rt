ghost use Rattle.std.specs.Prelude.{◌≡◌, List, [], ◌++◌, Some, MatchOption};
ghost use Rattle.model.specs.declared.types.Point.{Point};
ghost use Rattle.model.specs.Rules.{nearer, called};
ghost use Rattle.pricing.specs.Ends.{alone, widened, ends, ends_with, ends_onward};
ghost use Rattle.pricing.specs.Level.{level_with, nearest_among, nearest_with, nearest_onward};
ghost use Rattle.pricing.specs.Called.{IsCalled};

use crate::rule::PriceRule;
use model::Point;

// The lowest and the highest of the best points.
#[derive(Clone, Copy, Debug, PartialEq, Eq)]
pub struct BestEnds {
    pub lowest: Point,
    pub highest: Point,
}

impl BestEnds {
    // A point alone is both ends.
    fn alone(p: Point) -> BestEnds
        ensures { result ≡ alone p }
    {
        BestEnds {
            lowest: p,
            highest: p,
        }
    }

    // The ends where p is one of the best points too.
    fn widened(self, p: Point) -> BestEnds
        ensures { result ≡ widened self p }
    {
        BestEnds {
            lowest: if p.price < self.lowest.price {
                p
            } else {
                self.lowest
            },
            highest: if p.price > self.highest.price {
                p
            } else {
                self.highest
            },
        }
    }
}

// The ends after one more point.
fn ends_with<R: PriceRule>(rule: &R, earlier: Option<BestEnds>, p: Point) -> BestEnds
    ensures { result ≡ ends_with (R.rule rule.now) earlier p }
{
    let Some(found) = earlier else {
        return BestEnds::alone(p);
    };
    if rule.goes_ahead(p, found.highest) {
        BestEnds::alone(p)
    } else if rule.goes_ahead(found.highest, p) {
        found
    } else {
        found.widened(p)
    }
}

// The ends of the best points, going on from those of the points before.
pub fn best_ends<R: PriceRule>(
    rule: &R,
    earlier: Option<BestEnds>,
    points: &[Point],
) -> Option<BestEnds>
    ensures value { result ≡ ends_onward (R.rule rule.now) earlier points.now }
    ensures joined { (xs : List Point) → earlier ≡ ends (R.rule rule.now) xs → result ≡ ends (R.rule rule.now) (xs ++ points.now) }
{
    points
        .iter()
        .fold(earlier, |found, p| Some(ends_with(rule, found, *p)))
}

// Whether a's doubled price is nearer the target than b's, or as near and higher.
fn nearer(a: Point, b: Point, target: u64) -> bool
    ensures { result ≡ nearer target a b }
{
    let x = (2 * a.price as u64).abs_diff(target);
    let y = (2 * b.price as u64).abs_diff(target);
    // no order of pairs: a small distance and a high price are better, so the pairs would be crossed, `(x, b.price) < (y, a.price)`
    x < y || (x == y && a.price > b.price)
}

// The nearest after one more point.
fn nearest_with(earlier: Option<Point>, p: Point, target: u64) -> Point
    ensures { result ≡ nearest_with target earlier p }
{
    match earlier {
        Some(x) if !nearer(p, x, target) => x,
        _ => p,
    }
}

// Of the points that the best one does not go ahead of, the nearest to the target, going on from that of the points before.
pub fn nearest_level<R: PriceRule>(
    rule: &R,
    best: Point,
    target: u64,
    earlier: Option<Point>,
    points: &[Point],
) -> Option<Point>
    ensures value { result ≡ nearest_onward target earlier (level_with (R.rule rule.now) best points.now) }
    ensures joined { (xs : List Point) → earlier ≡ nearest_among target (level_with (R.rule rule.now) best xs) → result ≡ nearest_among target (level_with (R.rule rule.now) best (xs ++ points.now)) }
{
    points
        .iter()
        .filter(|p| !rule.goes_ahead(best, **p))
        .fold(earlier, |nearest, p| {
            Some(nearest_with(nearest, *p, target))
        })
}

// The called price with its point: of the best points, the nearest to the rule's target.
pub fn called_price<R: PriceRule>(rule: &R, points: &[Point], indicative: u32) -> Option<Point>
    ensures value { result ≡ called (R.rule rule.now) indicative points.now }
    ensures meaning { MatchOption result (points.now ≡ []) (IsCalled (R.rule rule.now) indicative points.now) }
{
    let ends = best_ends(rule, None, points)?;
    let target = rule.target(ends, indicative);
    nearest_level(rule, ends.highest, target, None, points)
}
