ghost use Rattle.std.specs.Prelude.{◌≡◌, ◌<◌, [], ◌∷◌};
ghost use Rattle.tape.specs.Tapes.{room, Recorded};

use crate::tapes::Tape;
use model::TapeRecord;

impl<'a> Tape<'a> {
    // A tape of which the places before the next one are used.
    // A call makes one and keeps its next place, in two lines. A function around them would take the rest of the call as a closure,
    // and each call would have to prove what that does.
    pub fn new(places: &'a mut [TapeRecord], next: usize) -> Tape<'a>
        ensures same { result.places.ghost_name ≡ places.entry.ghost_name }
        ensures places { result.places.now ≡ places.old }
        ensures next { result.next ≡ next }
    {
        Tape { places, next }
    }

    // Writes a record at the next free place.
    // That one is free is required, here and in all that writes, and no fact of the type: a tape may be full.
    pub fn write(&mut self, entry: TapeRecord)
        requires { 0 < room self.old }
        ensures { Recorded self.old self.new (entry ∷ []) }
    {
        self.places[self.next] = entry;
        self.next += 1;
    }
}
