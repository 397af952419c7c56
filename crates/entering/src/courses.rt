use model::{OrderPrice, Phase, Reason};

// What becomes of what remains of an order: it stands at some price, it is withdrawn, or nothing remains.
// An enum, and no closure that does it: definitions and counts read it before anything is done.
#[derive(Clone, Copy, Debug, PartialEq, Eq)]
pub(crate) enum Fate {
    Stands(OrderPrice),
    Withdrawn(Reason),
    Traded,
}

// What an order does once it is accepted: how many fills it has, how many standing orders they use up,
// what remains of it and what becomes of that, and the phase after it.
// The counts of a plan stand here again, and no plan is held: before trading there is none,
// and a fill-or-kill order that cannot trade whole does not follow its own.
#[derive(Clone, Copy, Debug, PartialEq, Eq)]
pub(crate) struct Course {
    pub fills: usize,
    pub removed: usize,
    pub remaining: u64,
    pub fate: Fate,
    pub phase: Phase,
}

impl Course {
    ghost use Rattle.std.specs.Prelude.{◌≡◌, ◌≤◌};
    ghost use Rattle.book.specs.Meaning.{max_capacity};
    ghost use Rattle.entering.specs.Questions.{standing_after, records_of};

    // How many orders stand after a course, of so many before it.
    // Its bounds are clauses, and no ghost fields: definitions make courses of any numbers.
    pub(crate) fn standing_after(self, count: usize) -> usize
        requires few { count ≤ max_capacity }
        requires fewer { self.removed ≤ count }
        ensures { result ≡ standing_after count self }
    {
        count - self.removed + usize::from(matches!(self.fate, Fate::Stands(_)))
    }

    // How many records a course writes.
    pub(crate) fn records(self) -> usize
        requires few { self.fills ≤ max_capacity }
        ensures { result ≡ records_of self }
    {
        self.fills + usize::from(matches!(self.fate, Fate::Withdrawn(_)))
    }
}
