ghost use Rattle.std.specs.Prelude.{◌≡◌, true, length};
ghost use Rattle.model.specs.Entry.{enter as enter_of};
ghost use Rattle.model.specs.State.{takes_orders, takes_withdrawals, takes_close, is_random};
ghost use Rattle.model.specs.Calls.{withdraw as withdraw_of, close as close_of, auction as auction_of, scratch_after};
ghost use Rattle.model.specs.Run.{step as outcome, scratch_step};
ghost use Rattle.model.specs.Views.{Came};
ghost use Rattle.session.specs.Views.{state};

use crate::session::Session;
use book::Book;
use entering::enter;
use leaving::{close, withdraw};
use model::{Call, Entry, Phase, Point, Refusal, TapeRecord};
use pricing::PriceRule;

impl<B: Book, R: PriceRule> Session<B, R> {
    // One call of a list: the phase and the call together decide. A call that the phase does not allow is refused.
    pub(crate) fn step(
        &mut self,
        call: Call,
        tape: &mut [TapeRecord],
        scratch: &mut [Point],
    ) -> Result<u64, Refusal>
        ensures came { Came (outcome (R.rule self.old.rule.below) (length tape.old) (length scratch.old) (state B.orders B.capacity self.old) call) result (state B.orders B.capacity self.new) tape.old self.old.day.used tape.new }
        ensures scratch { scratch.new ≡ scratch_step (state B.orders B.capacity self.old) call scratch.old }
        ensures rule { self.new.rule ≡ self.old.rule }
    {
        // An arm for each phase where the call's own fields are bound: `(A | B, Call::Enter(entry))` is not covered by the check.
        match (self.day.phase, call) {
            (Phase::PreOpening, Call::Enter(entry)) => self.entered(entry, tape),
            (Phase::Random, Call::Enter(entry)) => self.entered(entry, tape),
            (Phase::Trading, Call::Enter(entry)) => self.entered(entry, tape),
            (Phase::PreOpening, Call::Withdraw { member, number }) => {
                self.withdrawn(member, number, tape)
            }
            (Phase::Trading, Call::Withdraw { member, number }) => {
                self.withdrawn(member, number, tape)
            }
            (Phase::PreOpening, Call::BeginRandom) => {
                self.day.phase = Phase::Random;
                Ok(0)
            }
            (Phase::Random, Call::Auction) => self.auctioned(tape, scratch),
            (Phase::PreOpening | Phase::Random | Phase::Trading, Call::Close) => self.closed(tape),
            _ => Err(Refusal::WrongPhase),
        }
    }

    // An order, in a phase that takes orders.
    fn entered(&mut self, entry: Entry, tape: &mut [TapeRecord]) -> Result<u64, Refusal>
        requires { takes_orders self.old.day.phase ≡ true }
        ensures came { Came (enter_of (state B.orders B.capacity self.old) (length tape.old) entry) result (state B.orders B.capacity self.new) tape.old self.old.day.used tape.new }
        ensures rule { self.new.rule ≡ self.old.rule }
    {
        enter(&mut self.book, &self.settings, &mut self.day, entry, tape)
    }

    // A withdrawal, in a phase that takes withdrawals.
    fn withdrawn(
        &mut self,
        member: u32,
        number: u64,
        tape: &mut [TapeRecord],
    ) -> Result<u64, Refusal>
        requires { takes_withdrawals self.old.day.phase ≡ true }
        ensures came { Came (withdraw_of (state B.orders B.capacity self.old) (length tape.old) member number) result (state B.orders B.capacity self.new) tape.old self.old.day.used tape.new }
        ensures rule { self.new.rule ≡ self.old.rule }
    {
        withdraw(&mut self.book, &mut self.day, member, number, tape)
    }

    // The close, in a phase that may be closed.
    fn closed(&mut self, tape: &mut [TapeRecord]) -> Result<u64, Refusal>
        requires { takes_close self.old.day.phase ≡ true }
        ensures came { Came (close_of (state B.orders B.capacity self.old) (length tape.old)) result (state B.orders B.capacity self.new) tape.old self.old.day.used tape.new }
        ensures rule { self.new.rule ≡ self.old.rule }
    {
        close(&mut self.book, &mut self.day, tape)
    }

    // An auction in the random period: the call for a price and its strike; where the tape is too short for the strike, the price is put back.
    fn auctioned(&mut self, tape: &mut [TapeRecord], scratch: &mut [Point]) -> Result<u64, Refusal>
        requires { is_random self.old.day.phase ≡ true }
        ensures came { Came (auction_of (R.rule self.old.rule.below) (state B.orders B.capacity self.old) (length tape.old) (length scratch.old)) result (state B.orders B.capacity self.new) tape.old self.old.day.used tape.new }
        ensures scratch { scratch.new ≡ scratch_after (state B.orders B.capacity self.old) scratch.old }
        ensures rule { self.new.rule ≡ self.old.rule }
    {
        let Some(mut called) = self.call(tape, scratch)? else {
            return Ok(0);
        };
        let struck = self.strike(&mut called, tape);
        if struck.is_err() {
            let _ = self.put_back(&mut called);
        }
        struck
    }
}
