ghost use Rattle.std.specs.Prelude.{◌≡◌, true, false, leb, ◌++◌, length, drop, if◌then◌else◌, MatchResult, nat_le};
ghost use Rattle.model.specs.declared.types.Refusal.TheVariants.{ScratchTooShort};
ghost use Rattle.model.specs.Grid.{count};
ghost use Rattle.model.specs.Curve.{curve};
ghost use Rattle.model.specs.Auction.{call_price};
ghost use Rattle.grid.specs.Views.{plain};

use book::Book;
use curve::write_curve;
use grid::Settings;
use model::{Point, Refusal};
use pricing::{MostTraded, PriceRule, auction_price};

// The point that a call finds, or none where nothing trades at any grid price. The scratch holds the curve after it.
// A scratch with fewer places than the grid has prices is left as it was.
pub(crate) fn find_price<B: Book, R: PriceRule>(
    book: &B,
    rule: &MostTraded<R>,
    settings: &Settings,
    scratch: &mut [Point],
) -> Result<Option<Point>, Refusal>
    ensures value { MatchResult result (λ x. (nat_le (count (plain settings.now)) (length scratch.old) ≡ true) × (x ≡ call_price (R.rule rule.now.below) (plain settings.now) (B.orders book.now))) (λ e. (nat_le (count (plain settings.now)) (length scratch.old) ≡ false) × (e ≡ ScratchTooShort)) }
    ensures scratch { scratch.new ≡ (if leb (count (plain settings.now)) (length scratch.old) then curve (plain settings.now) (B.orders book.now) ++ drop (count (plain settings.now)) scratch.old else scratch.old) }
{
    let count = write_curve(book, settings, scratch).ok_or(Refusal::ScratchTooShort)?;
    Ok(auction_price(rule, &scratch[..count], settings.indicative))
}
