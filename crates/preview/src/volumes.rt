ghost use Rattle.std.specs.Prelude.{◌≡◌, ◌^◌, ◌<◌, ◌≤◌, ◌++◌, length, drop, MatchResult};
ghost use Rattle.model.specs.Grid.{count};
ghost use Rattle.model.specs.Curve.{takes_part, volume, point, curve};
ghost use Rattle.grid.specs.Views.{plain};
ghost use Rattle.preview.specs.Totals.{total};

use crate::faults::Fault;
use grid::Settings;
use model::{Order, Point, Side};

// Orders under the settings of their market. All of them together fit into 64 bits, and so does the volume of any of them.
#[derive(Clone, Copy)]
pub(crate) struct Market<'a> {
    settings: &'a Settings,
    orders: &'a [Order],
    ghost fits: { total orders.now < 2 ^ 64 },
}

impl<'a> Market<'a> {
    // The market of these orders, unless they exceed 64 bits.
    pub(crate) fn new(settings: &'a Settings, orders: &'a [Order]) -> Result<Market<'a>, Fault>
        ensures { MatchResult result (λ m. (m.settings.now ≡ settings.now) × (m.orders.now ≡ orders.now)) (λ e. (e ≡ Fault.QuantityTooLarge) × (2 ^ 64 ≤ total orders.now)) }
    {
        orders
            .iter()
            .try_fold(0u64, |sum, order| sum.checked_add(order.left))
            .ok_or(Fault::QuantityTooLarge)?;
        Ok(Market { settings, orders })
    }

    // Fills the front of the scratch, which has a place for every grid price, with their points.
    pub(crate) fn fill_curve(&self, scratch: &mut [Point])
        requires { count (plain self.now.settings.now) ≤ length scratch.old }
        ensures { scratch.new ≡ curve (plain self.now.settings.now) self.now.orders.now ++ drop (count (plain self.now.settings.now)) scratch.old }
    {
        for (place, point) in scratch.iter_mut().enumerate() {
            let Some(price) = self.settings.price_at(place) else {
                break;
            };
            *point = self.point_at(price);
        }
    }

    // The point of a price: what is bid and what is offered at it.
    fn point_at(&self, price: u32) -> Point
        ensures { result ≡ point (plain self.now.settings.now) self.now.orders.now price }
    {
        Point {
            price,
            demand: self.volume(Side::Buy, price),
            supply: self.volume(Side::Sell, price),
        }
    }

    // What is left of the active orders of a side that allow a price.
    fn volume(&self, side: Side, price: u32) -> u64
        ensures { result ≡ volume (plain self.now.settings.now) side price self.now.orders.now }
    {
        self.orders
            .iter()
            .filter(|order| takes_part(self.settings, side, **order, price))
            .map(|order| order.left)
            .sum()
    }
}

// Whether an order is of this side, active, and allows the price.
fn takes_part(settings: &Settings, side: Side, order: Order, price: u32) -> bool
    ensures { result ≡ takes_part (plain settings.now) side price order }
{
    side == order.side && settings.active(order.price) && order.price.allows(side, price)
}
