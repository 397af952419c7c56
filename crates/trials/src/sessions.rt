ghost use Rattle.std.specs.Prelude.{◌≡◌, ◌<◌};

use crate::market::{at, buy, sell};
use arrival::ArrivalBook;
use book::{Book, StandingOrder};
use model::{Answer, Call, Order, OrderPrice, Point, Refusal, Side, TapeRecord};
use pricing::{Nearest, PriceRule};
use ranked::RankedBook;
use samples::TERMS;
use session::{CalledPrice, Session, run};
use std::process::Abort;

// The number of what was refused, 0 where nothing was: the expected values are the numbers of the rules.
fn number_of(outcome: Result<(), Refusal>) -> u8 {
    match outcome {
        Ok(()) => 0,
        Err(why) => u8::from(why),
    }
}

// Makes a session over a book with an order in it, where the book takes one.
fn make_occupied<B: Book + Drop>(mut book: B) -> Result<(), Refusal> {
    let order = Order {
        number: 1,
        member: 7,
        side: Side::Buy,
        price: OrderPrice::Market,
        left: 5,
    };
    if let Ok(order) = StandingOrder::try_from(order) {
        book.add(order);
    }
    let _made = Session::new(TERMS, book, Nearest).map_err(|(why, _, _)| why)?;
    Ok(())
}

// A session is not made over a book in which an order stands. A table without a row holds none.
pub(crate) fn occupied_books(rt: &impl Abort) {
    let mut rows = [Order::BLANK; 2];
    assert_eq!(rt; number_of(make_occupied(ArrivalBook::new(&mut rows))), 3);
    assert_eq!(rt; number_of(make_occupied(RankedBook::new(&mut rows))), 3);
    assert_eq!(rt; number_of(make_occupied(ArrivalBook::new(&mut []))), 0);
    assert_eq!(rt; number_of(make_occupied(RankedBook::new(&mut []))), 0);
}

// Orders of this quantity on both sides, and the random period.
fn prepare<B: Book, R: PriceRule>(rt: &impl Abort, session: &mut Session<B, R>, quantity: u64) {
    let calls = [
        buy(at(100), quantity),
        sell(at(100), quantity),
        Call::BeginRandom,
    ];
    let mut answers = [Answer::BLANK; 3];
    assert!(rt; run(session, &calls, &mut answers, &mut [], &mut []).is_ok());
}

// Calls a price in both sessions, and strikes the first one's in the second.
fn strike_elsewhere<B: Book, C: Book, R: PriceRule>(
    one: &mut Session<B, R>,
    two: &mut Session<C, R>,
) -> Result<(), Refusal> {
    let mut tape = [TapeRecord::BLANK; 4];
    let mut scratch = [Point::BLANK; 41];
    let Some(mut called) = one.call(&mut tape, &mut scratch)? else {
        return Ok(());
    };
    let outcome = strike_in(two, &mut called, &mut tape, &mut scratch);
    let _ = one.put_back(&mut called);
    outcome
}

// Strikes a price that another session called, while one of the session's own waits.
fn strike_in<B: Book, R: PriceRule>(
    session: &mut Session<B, R>,
    foreign: &mut CalledPrice,
    tape: &mut [TapeRecord],
    scratch: &mut [Point],
) -> Result<(), Refusal>
    requires live { 0 < foreign.old.quantity }
    ensures { foreign.new ≡ foreign.old }
{
    let Some(mut own) = session.call(tape, scratch)? else {
        return Ok(());
    };
    if foreign.quantity() == own.quantity() {
        let _ = session.put_back(&mut own);
        return Ok(());
    }
    match session.strike(foreign, tape) {
        Ok(_) => unreachable(),
        Err(why) => {
            let _ = session.put_back(&mut own);
            Err(why)
        }
    }
}

// Strikes a price in a session that has called another one.
fn strike_foreign<B: Book + Drop, C: Book + Drop>(
    rt: &impl Abort,
    first: B,
    second: C,
) -> Result<(), Refusal> {
    let mut one = Session::new(TERMS, first, Nearest).map_err(|(why, _, _)| why)?;
    let mut two = Session::new(TERMS, second, Nearest).map_err(|(why, _, _)| why)?;
    prepare(rt, &mut one, 5);
    prepare(rt, &mut two, 6);
    strike_elsewhere(&mut one, &mut two)
}

// A price that another session called is refused.
pub(crate) fn foreign_prices(rt: &impl Abort) {
    let mut rows = [Order::BLANK; 2];
    let mut others = [Order::BLANK; 2];
    let outcome = strike_foreign(
        rt,
        ArrivalBook::new(&mut rows),
        RankedBook::new(&mut others),
    );
    assert_eq!(rt; number_of(outcome), 13);
}
