ghost use Rattle.std.specs.Prelude.{◌≡◌, Bool, true};
ghost use Rattle.model.specs.declared.types.Order.{Order};
ghost use Rattle.model.specs.Calls.{is_market_order};
ghost use Rattle.book.specs.Plain.{plain};

use book::StandingOrder;

// Which orders are withdrawn.
// A trait, and no closure: what a closure answers is a relation, and the contracts filter by a function.
pub(crate) trait Choice: Copy {
    // an order is among them
    ghost chosen: { Order → Bool };

    // Whether an order is among them.
    fn chooses(self, order: StandingOrder) -> bool
        ensures { result ≡ chosen (plain order) };
}

// The orders without a limit price.
#[derive(Clone, Copy)]
pub(crate) struct MarketOrders;

impl Choice for MarketOrders {
    ghost chosen = { is_market_order };

    fn chooses(self, order: StandingOrder) -> bool {
        order.price.is_market()
    }
}

// Every order.
#[derive(Clone, Copy)]
pub(crate) struct AllOrders;

impl Choice for AllOrders {
    ghost chosen = { λ _. true };

    fn chooses(self, _order: StandingOrder) -> bool {
        true
    }
}
