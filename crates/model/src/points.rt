ghost use Rattle.std.specs.Prelude.{◌≡◌};
ghost use Rattle.model.specs.Curve.{traded, surplus};

use crate::types::Point;

impl Point {
    // What would trade at this price: the smaller of demand and supply.
    pub fn traded(&self) -> u64
        ensures { result ≡ traded self.now }
    {
        self.demand.min(self.supply)
    }

    // By how much one side exceeds the other at this price.
    pub fn surplus(&self) -> u64
        ensures { result ≡ surplus self.now }
    {
        self.demand.abs_diff(self.supply)
    }
}
