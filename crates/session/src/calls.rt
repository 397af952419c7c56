ghost use Rattle.std.specs.Prelude.{◌≡◌, ℕ, ◌<◌, true, length, is_ok, MatchResult, OnErr};
ghost use Rattle.model.specs.declared.types.Phase.TheVariants.{Called};
ghost use Rattle.model.specs.Numbers.{code};
ghost use Rattle.model.specs.Calls.{ask_called, scratch_after, call as call_outcome, strike as strike_outcome, put_back as put_back_outcome};
ghost use Rattle.model.specs.Views.{refusal_of, answer_of, Came, done_or_refused};
ghost use Rattle.session.specs.Tokens.{Told, Spent};
ghost use Rattle.session.specs.Views.{state};

use crate::called::CalledPrice;
use crate::session::Session;
use auctioning::{call, strike_called};
use book::Book;
use model::{Phase, Point, Refusal, TapeRecord};
use pricing::PriceRule;

impl<B: Book, R: PriceRule> Session<B, R> {
    // Calls the price that the rule finds, which then waits for its strike or its put-back, and answers it.
    // Where nothing trades at any grid price, withdraws the market orders and begins trading.
    // The scratch holds the curve after it, unless the call is refused before it looks for a price.
    pub fn call(
        &mut self,
        tape: &mut [TapeRecord],
        scratch: &mut [Point],
    ) -> Result<Option<CalledPrice>, Refusal>
        ensures came { Came (call_outcome (R.rule self.old.rule.below) (state B.orders B.capacity self.old) (length tape.old) (length scratch.old)) (done_or_refused result) (state B.orders B.capacity self.new) tape.old self.old.day.used tape.new }
        ensures scratch { scratch.new ≡ scratch_after (state B.orders B.capacity self.old) scratch.old }
        ensures token { Told (R.rule self.old.rule.below) (state B.orders B.capacity self.old) (state B.orders B.capacity self.new) result }
        ensures rule { self.new.rule ≡ self.old.rule }
    {
        if self.day.phase != Phase::Random {
            return Err(Refusal::WrongPhase);
        }
        let found = call(
            &mut self.book,
            &self.rule,
            &self.settings,
            &mut self.day,
            tape,
            scratch,
        )?;
        Ok(found.map(|point| CalledPrice {
            price: point.price,
            quantity: point.traded(),
        }))
    }

    // Strikes the called price: trades its quantity at it, and begins trading about it. Answers the quantity. A refusal leaves the session as it was.
    pub fn strike(
        &mut self,
        called: &mut CalledPrice,
        tape: &mut [TapeRecord],
    ) -> Result<u64, Refusal>
        requires live { 0 < called.old.quantity }
        ensures came { Came (strike_outcome (state B.orders B.capacity self.old) (length tape.old) called.old.price called.old.quantity) result (state B.orders B.capacity self.new) tape.old self.old.day.used tape.new }
        ensures token { Spent called.old called.new result }
        ensures price { called.new.price ≡ called.old.price }
        ensures kept { OnErr result (state B.orders B.capacity self.new ≡ state B.orders B.capacity self.old) }
        ensures rule { self.new.rule ≡ self.old.rule }
    {
        self.check_called(called)?;
        let traded = strike_called(
            &mut self.book,
            &self.settings,
            &mut self.day,
            called.price,
            called.quantity,
            tape,
        )?;
        called.spend();
        Ok(traded)
    }

    // Puts the called price back: the random period goes on without it. The price that waits for its strike is never refused.
    // It answers 0, since by the rules every call answers a number.
    pub fn put_back(&mut self, called: &mut CalledPrice) -> Result<u64, Refusal>
        requires live { 0 < called.old.quantity }
        ensures refusal { refusal_of result ≡ (put_back_outcome (state B.orders B.capacity self.old) called.old.price called.old.quantity).refusal }
        ensures answer { answer_of result ≡ 0 }
        ensures state { state B.orders B.capacity self.new ≡ (put_back_outcome (state B.orders B.capacity self.old) called.old.price called.old.quantity).state }
        ensures token { Spent called.old called.new result }
        ensures price { called.new.price ≡ called.old.price }
        ensures own { self.old.day.phase ≡ Called called.old.price called.old.quantity → called.new.quantity ≡ 0 }
        ensures rule { self.new.rule ≡ self.old.rule }
    {
        self.check_called(called)?;
        self.day.phase = Phase::Random;
        called.spend();
        Ok(0)
    }

    // Whether this price and this quantity are those called.
    fn check_called(&self, called: &CalledPrice) -> Result<(), Refusal>
        ensures own { self.now.day.phase ≡ Called called.now.price called.now.quantity → is_ok result ≡ true }
        ensures asked { MatchResult result (λ _. self.now.day.phase ≡ Called called.now.price called.now.quantity) (λ e. ((rest : ℕ) → ask_called self.now.day.phase called.now.price called.now.quantity rest ≡ code e)) }
    {
        let own = Phase::Called {
            price: called.price,
            quantity: called.quantity,
        };
        if self.day.phase == own {
            Ok(())
        } else if matches!(self.day.phase, Phase::Called { .. }) {
            Err(Refusal::ForeignCalledPrice)
        } else {
            Err(Refusal::WrongPhase)
        }
    }
}
