ghost use Rattle.std.specs.Prelude.{◌≡◌, length};
ghost use Rattle.model.specs.Entry.{enter as enter_of};
ghost use Rattle.model.specs.Calls.{withdraw as withdraw_of, begin_random as begin_random_of, close as close_of};
ghost use Rattle.model.specs.Views.{refusal_of, answer_of, Came};
ghost use Rattle.session.specs.Views.{state};

use crate::session::Session;
use book::Book;
use model::{Call, Entry, Refusal, TapeRecord};
use pricing::PriceRule;

impl<B: Book, R: PriceRule> Session<B, R> {
    // Enters an order, and answers its number.
    pub fn enter(&mut self, entry: Entry, tape: &mut [TapeRecord]) -> Result<u64, Refusal>
        ensures came { Came (enter_of (state B.orders B.capacity self.old) (length tape.old) entry) result (state B.orders B.capacity self.new) tape.old self.old.day.used tape.new }
        ensures rule { self.new.rule ≡ self.old.rule }
    {
        self.step(Call::Enter(entry), tape, &mut [])
    }

    // Withdraws all that is left of a member's order, and answers it.
    pub fn withdraw(
        &mut self,
        member: u32,
        number: u64,
        tape: &mut [TapeRecord],
    ) -> Result<u64, Refusal>
        ensures came { Came (withdraw_of (state B.orders B.capacity self.old) (length tape.old) member number) result (state B.orders B.capacity self.new) tape.old self.old.day.used tape.new }
        ensures rule { self.new.rule ≡ self.old.rule }
    {
        self.step(Call::Withdraw { member, number }, tape, &mut [])
    }

    // Begins the random period. It answers 0, since by the rules every call answers a number.
    pub fn begin_random(&mut self) -> Result<u64, Refusal>
        ensures refusal { refusal_of result ≡ (begin_random_of (state B.orders B.capacity self.old)).refusal }
        ensures answer { answer_of result ≡ 0 }
        ensures state { state B.orders B.capacity self.new ≡ (begin_random_of (state B.orders B.capacity self.old)).state }
        ensures rule { self.new.rule ≡ self.old.rule }
    {
        self.step(Call::BeginRandom, &mut [], &mut [])
    }

    // Withdraws every order that stands, ends the day, and answers how many they were.
    pub fn close(&mut self, tape: &mut [TapeRecord]) -> Result<u64, Refusal>
        ensures came { Came (close_of (state B.orders B.capacity self.old) (length tape.old)) result (state B.orders B.capacity self.new) tape.old self.old.day.used tape.new }
        ensures rule { self.new.rule ≡ self.old.rule }
    {
        self.step(Call::Close, tape, &mut [])
    }
}
