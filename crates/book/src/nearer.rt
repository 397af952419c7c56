ghost use Rattle.std.specs.Prelude.{◌≡◌};
ghost use Rattle.book.specs.Meaning.{lower_numbered, nearer_of};
ghost use Rattle.book.specs.Plain.{plain, as_plain};

use crate::standing::StandingOrder;

// The lower-numbered of two orders, or the one that is there.
pub(crate) fn lower_numbered(
    a: Option<StandingOrder>,
    b: Option<StandingOrder>,
) -> Option<StandingOrder>
    ensures { as_plain result ≡ lower_numbered (as_plain a) (as_plain b) }
{
    // a match by what is there, as the definition has it: `min_by_key` over both is shorter, and hides that of two with one number the first stays
    match (a, b) {
        (None, _) => b,
        (_, None) => a,
        (Some(x), Some(y)) => { if y.number < x.number { b } else { a } }
    }
}

// The nearest order above a number, after one more order.
pub(crate) fn nearer(
    number: u64,
    best: Option<StandingOrder>,
    o: StandingOrder,
) -> Option<StandingOrder>
    ensures { as_plain result ≡ nearer_of number (as_plain best) (plain o) }
{
    if number < o.number {
        lower_numbered(best, Some(o))
    } else {
        best
    }
}
