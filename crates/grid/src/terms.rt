ghost use Rattle.std.specs.Prelude.{◌≡◌, ◌<◌};
ghost use Rattle.model.specs.Making.{settings_in_range, indicative_allowed};
ghost use Rattle.grid.specs.Views.{offered};

use model::{MAX_BAND, MAX_NUMBER, MAX_PRICE, MAX_TICK};

// The numbers that a session is made of, in bounds or not.
#[derive(Clone, Copy, Debug, PartialEq, Eq)]
pub struct Terms {
    pub tick: u32,
    pub indicative: u32,
    pub absolute: u32,
    pub static_band: u32,
    pub last_number: u64,
}

impl Terms {
    // Whether tick, bands and last number are within their limits.
    pub(crate) fn in_range(&self) -> bool
        ensures { result ≡ settings_in_range (offered self.now) self.now.last_number }
    {
        (1..=MAX_TICK).contains(&self.tick)
            && (1..=MAX_BAND).contains(&self.absolute)
            && (1..=MAX_BAND).contains(&self.static_band)
            && self.last_number <= MAX_NUMBER
    }

    // Whether the indicative price is within its limits and a multiple of the tick.
    pub(crate) fn indicative_allowed(&self) -> bool
        requires { 0 < self.now.tick }
        ensures { result ≡ indicative_allowed (offered self.now) }
    {
        (1..=MAX_PRICE).contains(&self.indicative) && self.indicative % self.tick == 0
    }
}
