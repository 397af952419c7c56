use crate::limits::limit;
use book::StandingOrder;

// What an order would meet: how many fills, how many standing orders they use up, what remains of the order,
// whether trading is interrupted, and the price of the last fill, if there is one.
#[derive(Clone, Copy, Debug, PartialEq, Eq)]
pub struct Plan {
    pub fills: usize,
    pub removed: usize,
    pub remaining: u64,
    pub interrupted: bool,
    pub last_price: Option<u32>,
}

impl Plan {
    ghost use Rattle.std.specs.Prelude.{◌≡◌, ◌<◌, ◌≤◌};
    ghost use Rattle.book.specs.Meaning.{max_capacity};
    ghost use Rattle.book.specs.Plain.{plain};
    ghost use Rattle.meeting.specs.Plans.{with_fill};

    // The plan with one fill more, at the standing order's price. It uses up that order where it takes all that is left of it.
    // Its bounds are clauses, and no ghost fields: definitions make plans of any numbers.
    pub(crate) fn with_fill(self, o: StandingOrder) -> Plan
        requires few { self.fills < max_capacity }
        requires fewer { self.removed ≤ self.fills }
        ensures { result ≡ with_fill self (plain o) }
    {
        let quantity = self.remaining.min(o.left);
        Plan {
            fills: self.fills + 1,
            removed: self.removed + usize::from(quantity == o.left),
            remaining: self.remaining - quantity,
            interrupted: false,
            last_price: Some(limit(o.price)),
        }
    }
}
