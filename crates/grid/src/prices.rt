ghost use Rattle.std.specs.Prelude.{◌≡◌, ◌+◌, ◌-◌, ◌*◌, ◌/◌, ◌<◌, ◌≤◌, min, length, if◌then◌else◌, Some, None, nat_lt};
ghost use Rattle.model.specs.Numbers.{max_price, max_count};
ghost use Rattle.model.specs.Grid.{on_grid, down, up, divided_up, lowest, highest, IsLowest, IsHighest, count, grid, active};
ghost use Rattle.grid.specs.Views.{plain};

use crate::bands::within;
use crate::settings::Settings;
use model::{MAX_PRICE, OrderPrice};

impl Settings {
    // Whether a price is on the grid: a multiple of the tick, at most 99,999, within the absolute band about the indicative price.
    pub fn on_grid(&self, price: u32) -> bool
        ensures { result ≡ on_grid (plain self.now) price }
    {
        price % self.tick == 0
            && price <= MAX_PRICE
            && within(self.absolute, self.indicative, price)
    }

    // Whether an order at this price may trade today: a market order always, a limit order if its price is on the grid.
    pub fn active(&self, price: OrderPrice) -> bool
        ensures { result ≡ active (plain self.now) price }
    {
        match price {
            OrderPrice::Market => true,
            OrderPrice::Limit(limit) => self.on_grid(limit),
        }
    }

    // The least price on the grid.
    #[tactic(auto, using(crate::proofs::Bounds::divided_up_is))]
    pub fn lowest(&self) -> u32
        ensures value { result ≡ lowest (plain self.now) }
        ensures least { IsLowest (plain self.now) result }
    {
        self.band_bottom().div_ceil(self.tick) * self.tick
    }

    // The greatest price on the grid.
    pub fn highest(&self) -> u32
        ensures value { result ≡ highest (plain self.now) }
        ensures greatest { IsHighest (plain self.now) result }
    {
        let top = self.band_top();
        top / self.tick * self.tick
    }

    // How many prices the grid has.
    pub fn count(&self) -> usize
        ensures value { result ≡ count (plain self.now) }
        ensures all { result ≡ length (grid (plain self.now)) }
        ensures most { result ≤ max_count }
    {
        (self.span() / self.tick + 1) as usize
    }

    // The grid price at a place, counted from 0 at the lowest, or none beyond the highest.
    pub fn price_at(&self, place: usize) -> Option<u32>
        ensures { result ≡ (if nat_lt place (count (plain self.now)) then Some (lowest (plain self.now) + place * self.now.tick) else None) }
    {
        (place < self.count()).then(|| self.raised(place))
    }

    // From the lowest price to the highest, and so how many prices there are.
    fn span(&self) -> u32
        ensures value { result ≡ highest (plain self.now) - lowest (plain self.now) }
        ensures small { result ≤ max_price }
        ensures all { count (plain self.now) ≡ length (grid (plain self.now)) }
        ensures most { count (plain self.now) ≤ max_count }
    {
        self.highest() - self.lowest()
    }

    // So many ticks above the lowest price, within the grid.
    fn raised(&self, ticks: usize) -> u32
        requires { ticks < count (plain self.now) }
        ensures { result ≡ lowest (plain self.now) + ticks * self.now.tick }
    {
        self.lowest() + ticks as u32 * self.tick
    }

    // The least price within the absolute band, a multiple of the tick or not.
    fn band_bottom(&self) -> u32
        ensures value { result ≡ divided_up 100 (self.now.indicative * (100 - self.now.absolute)) }
        ensures small { (result + self.now.tick) ≤ 200000 }
        ensures fits { up self.now.tick result ≤ max_price }
        ensures least { IsLowest (plain self.now) (up self.now.tick result) }
    {
        (self.indicative * (100 - self.absolute)).div_ceil(100)
    }

    // The greatest price within the absolute band, a multiple of the tick or not.
    fn band_top(&self) -> u32
        ensures value { result ≡ min max_price ((self.now.indicative * (100 + self.now.absolute)) / 100) }
        ensures fits { down self.now.tick result ≤ max_price }
        ensures greatest { IsHighest (plain self.now) (down self.now.tick result) }
    {
        let top = self.indicative * (100 + self.absolute) / 100;
        top.min(MAX_PRICE)
    }
}
