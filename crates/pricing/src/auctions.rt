ghost use Rattle.std.specs.Prelude.{◌≡◌};
ghost use Rattle.model.specs.Rules.{most_traded, called};
ghost use Rattle.model.specs.Auction.{if_trades};

use crate::choice::called_price;
use crate::layers::MostTraded;
use crate::rule::PriceRule;
use model::Point;

// The point at which an auction trades: the called price with its point, if something trades there.
pub fn auction_price<R: PriceRule>(
    rule: &MostTraded<R>,
    points: &[Point],
    indicative: u32,
) -> Option<Point>
    ensures { result ≡ if_trades (called (most_traded (R.rule rule.now.below)) indicative points.now) }
{
    called_price(rule, points, indicative).filter(|point| point.traded() > 0)
}
