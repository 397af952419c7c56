ghost use Rattle.std.specs.Prelude.{◌≡◌, ◌+◌, ◌*◌, ◌<◌, ◌≤◌};
ghost use Rattle.model.specs.Grid.{lowest, count};
ghost use Rattle.grid.specs.Views.{plain};

use grid::Settings;

// A run of so many prices a tick apart, from the first up. No price of it leaves 32 bits.
#[derive(Clone, Copy)]
pub(crate) struct Run<'a> {
    pub(crate) settings: &'a Settings,
    pub(crate) from: u32,
    pub(crate) count: usize,
    ghost small: { from + count * settings.now.tick ≤ 200000 },
}

impl<'a> Run<'a> {
    // The whole grid.
    pub(crate) fn grid(settings: &'a Settings) -> Run<'a>
        ensures { (result.settings.now ≡ settings.now) × (result.from ≡ lowest (plain settings.now)) × (result.count ≡ count (plain settings.now)) }
    {
        Run {
            settings,
            from: settings.lowest(),
            count: settings.count(),
        }
    }

    // The price at a place, counted from 0. Not that of the grid: a run may begin anywhere.
    pub(crate) fn price_at(&self, place: usize) -> u32
        requires { place < self.now.count }
        ensures { result ≡ self.now.from + place * self.now.settings.now.tick }
    {
        self.from + place as u32 * self.settings.tick
    }
}
