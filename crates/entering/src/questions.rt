ghost use Rattle.std.specs.Prelude.{◌≡◌, ℕ, true, OnOk};
ghost use Rattle.model.specs.Entry.{price_allowed};
ghost use Rattle.book.specs.Bounds.{price_in_bounds};
ghost use Rattle.grid.specs.Views.{plain};
ghost use Rattle.entering.specs.Questions.{refusal_or, own_questions, InRange};

use grid::Settings;
use model::{
    Condition, DayState, Entry, MAX_MEMBER, MAX_NUMBER, MAX_PRICE, MAX_QUANTITY, OrderPrice, Phase,
    Refusal,
};

// Whether a price is market, or a limit in range and on the tick.
fn price_allowed(settings: &Settings, price: OrderPrice) -> bool
    ensures answer { result ≡ price_allowed (plain settings.now) price }
    ensures bounds { result ≡ true → price_in_bounds price ≡ true }
{
    match price {
        OrderPrice::Market => true,
        OrderPrice::Limit(limit) => (1..=MAX_PRICE).contains(&limit) && limit % settings.tick == 0,
    }
}

// The questions that an order answers without the book, in their order: the first answered no refuses it.
pub(crate) fn ask_itself(settings: &Settings, day: &DayState, entry: Entry) -> Result<(), Refusal>
    ensures refusal { (rest : ℕ) → own_questions (plain settings.now) day.now entry rest ≡ refusal_or result rest }
    ensures bounds { OnOk result (InRange day.now entry) }
{
    if !(1..=MAX_MEMBER).contains(&entry.member) {
        return Err(Refusal::UnknownMember);
    }
    if !(1..=MAX_QUANTITY).contains(&entry.quantity) {
        return Err(Refusal::Quantity);
    }
    if !price_allowed(settings, entry.price) {
        return Err(Refusal::Price);
    }
    if entry.condition != Condition::Plain && day.phase != Phase::Trading {
        return Err(Refusal::ConditionOutsideTrading);
    }
    if day.last >= MAX_NUMBER {
        return Err(Refusal::NumbersExhausted);
    }
    Ok(())
}
