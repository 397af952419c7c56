ghost use Rattle.std.specs.Prelude.{◌≡◌};
ghost use Rattle.model.specs.Trading.{limit as limit_of};

use model::OrderPrice;

// The limit price. No market order stands while trading runs.
// It answers 0 for one as the definition does, and no Option: so a meeting is defined for any book.
pub(crate) fn limit(price: OrderPrice) -> u32
    ensures { result ≡ limit_of price }
{
    match price {
        OrderPrice::Market => 0,
        OrderPrice::Limit(limit) => limit,
    }
}
