ghost use Rattle.std.specs.Prelude.{◌≡◌};
ghost use Rattle.auctioning.specs.Days.{with_called, trading_from};

use model::{DayState, Phase, Point};

// The point's price is called, with the quantity that trades at it.
pub(crate) fn call_point(day: &mut DayState, point: Point)
    ensures { day.new ≡ with_called day.old point }
{
    day.phase = Phase::Called {
        price: point.price,
        quantity: point.traded(),
    };
}

// Trading begins about a reference price, with so many places of the tape used.
pub(crate) fn begin_trading(day: &mut DayState, reference: u32, used: usize)
    ensures { day.new ≡ trading_from day.old reference used }
{
    day.phase = Phase::Trading;
    day.reference = reference;
    day.used = used;
}
