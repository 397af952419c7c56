ghost use Rattle.std.specs.Prelude.{◌≡◌, true};
ghost use Rattle.model.specs.Lawful.{RulesAreLawful};
ghost use Rattle.model.specs.Making.{SessionsAreMadeNew};
ghost use Rattle.model.specs.Allocations.{OptimumIsUnique};
ghost use Rattle.model.specs.Laws.{TheSessionKeepsItsLaws};

// The theorems about the definition: every list of calls, run on a new session under a lawful price rule,
// keeps the market's laws; a session that is made is new; the price rules of the markets are lawful;
// and the law of optimal auctions leaves one quantity and one price.
// The check asks for the proof of a theorem that a contract names: to carry the theorems it need do nothing.
// That it answers true, and not nothing, is a promise of its own; nothing here calls it.
pub fn laws_hold() -> bool
    ensures result { result ≡ true }
    ensures session { TheSessionKeepsItsLaws }
    ensures making { SessionsAreMadeNew }
    ensures rules { RulesAreLawful }
    ensures optimum { OptimumIsUnique }
{
    cite_theorems();
    true
}

fn cite_theorems()
    ensures session { TheSessionKeepsItsLaws }
    ensures making { SessionsAreMadeNew }
    ensures rules { RulesAreLawful }
    ensures optimum { OptimumIsUnique }
{}
