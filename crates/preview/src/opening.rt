ghost use Rattle.std.specs.Prelude.{◌≡◌, ◌++◌, length, drop, IfOk, MatchResult};
ghost use Rattle.model.specs.Grid.{count};
ghost use Rattle.model.specs.Curve.{curve};
ghost use Rattle.model.specs.Auction.{call_price};
ghost use Rattle.model.specs.Allocations.{Found};
ghost use Rattle.grid.specs.Views.{plain};
ghost use Rattle.preview.specs.Totals.{curve_fault};

use crate::curve::write_curve;
use crate::faults::Fault;
use grid::Settings;
use model::{Order, Point};
use pricing::{MostTraded, PriceRule, auction_price};

// The point at which an auction of these orders would trade, or none where nothing would: the first grid price at which the most trades.
// The scratch holds the curve after it; a refusal leaves the scratch as it was.
pub fn opening_price<R: PriceRule>(
    rule: &MostTraded<R>,
    settings: &Settings,
    orders: &[Order],
    scratch: &mut [Point],
) -> Result<Option<Point>, Fault>
    ensures value { MatchResult result (λ x. (x ≡ call_price (R.rule rule.now.below) (plain settings.now) orders.now) × (curve_fault (plain settings.now) orders.now (length scratch.old) ≡ None)) (λ e. curve_fault (plain settings.now) orders.now (length scratch.old) ≡ Some e) }
    ensures scratch { MatchResult result (λ _. scratch.new ≡ curve (plain settings.now) orders.now ++ drop (count (plain settings.now)) scratch.old) (λ _. scratch.new ≡ scratch.old) }
    ensures first { IfOk result (Found (R.rule rule.now.below) (plain settings.now) orders.now) }
{
    let count = write_curve(settings, orders, scratch)?;
    Ok(auction_price(rule, &scratch[..count], settings.indicative))
}
