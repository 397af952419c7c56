ghost use Rattle.grid.specs.Making.{Judged};

use crate::settings::Settings;
use crate::terms::Terms;
use model::Refusal;

// Settings of these numbers, or the first of their two questions that is answered no.
impl TryFrom<Terms> for Settings {
    type Error = Refusal;

    ghost try_from_gives = { Judged };

    fn try_from(terms: Terms) -> Result<Settings, Refusal> {
        if !terms.in_range() {
            return Err(Refusal::SettingsOutOfRange);
        }
        if !terms.indicative_allowed() {
            return Err(Refusal::IndicativePrice);
        }
        Ok(Settings {
            tick: terms.tick,
            indicative: terms.indicative,
            absolute: terms.absolute,
            static_band: terms.static_band,
            last_number: terms.last_number,
        })
    }
}
