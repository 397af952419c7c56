ghost use Rattle.std.specs.Prelude.{◌≡◌, ◌-◌, min, true, false, MatchResult, nat_le};
ghost use Rattle.model.specs.declared.types.Refusal.TheVariants.{TapeFull};
ghost use Rattle.model.specs.Numbers.{max_places};

use crate::limits::MAX_PLACES;
use crate::types::{DayState, Refusal};

impl DayState {
    // How many places of a tape of this length are still free. At most 65,536 are ever used.
    pub fn free_places(&self, tape: usize) -> usize
        ensures { result ≡ min tape max_places - self.now.used }
    {
        tape.min(MAX_PLACES).saturating_sub(self.used)
    }

    // Whether a tape of this length has a free place for each of so many records.
    pub fn ask_room(&self, records: usize, tape: usize) -> Result<(), Refusal>
        ensures { MatchResult result (λ _. nat_le records (min tape max_places - self.now.used) ≡ true) (λ e. (nat_le records (min tape max_places - self.now.used) ≡ false) × (e ≡ TapeFull)) }
    {
        if records > self.free_places(tape) {
            return Err(Refusal::TapeFull);
        }
        Ok(())
    }
}
