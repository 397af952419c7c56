ghost use Rattle.std.specs.Prelude.{◌≡◌};
ghost use Rattle.model.specs.Curve.{allows};
ghost use Rattle.model.specs.Orders.{is_market};

use crate::types::{OrderPrice, Side};

impl OrderPrice {
    // Whether this is the mark market.
    pub fn is_market(self) -> bool
        ensures { result ≡ is_market self }
    {
        matches!(self, OrderPrice::Market)
    }

    // Whether an order of this side at this price may trade at `price`.
    pub fn allows(self, side: Side, price: u32) -> bool
        ensures { result ≡ allows side self price }
    {
        match (side, self) {
            (_, OrderPrice::Market) => true,
            (Side::Buy, OrderPrice::Limit(limit)) => price <= limit,
            (Side::Sell, OrderPrice::Limit(limit)) => limit <= price,
        }
    }
}
