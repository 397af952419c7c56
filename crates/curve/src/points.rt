ghost use Rattle.std.specs.Prelude.{◌≡◌};
ghost use Rattle.curve.specs.Runs.{with_volume};

use model::{Point, Side};

// The point at this price, with this volume as the demand of buys or the supply of sells.
pub(crate) fn with_volume(side: Side, point: Point, price: u32, volume: u64) -> Point
    ensures { result ≡ with_volume side point price volume }
{
    match side {
        Side::Buy => Point {
            price,
            demand: volume,
            ..point
        },
        Side::Sell => Point {
            price,
            supply: volume,
            ..point
        },
    }
}
