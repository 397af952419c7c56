use crate::market::Market;
use book::Book;
use desk::trade_day;
use model::{Answer, Call, Point, Reason, Refusal, TapeRecord};
use std::alloc::Global;
use std::fmt;
use std::test::Fail;

// Contents that no day writes, and not the blank ones: a place that is shown and was not written would be seen.
const NO_ANSWER: Answer = Answer {
    refusal: 99,
    answer: 99,
};

const NO_POINT: Point = Point {
    price: 9,
    demand: 9,
    supply: 9,
};

const NO_RECORD: TapeRecord = TapeRecord::Withdrawal {
    number: 9,
    quantity: 9,
    reason: Reason::AtClose,
};

// A day in a line: its answers, refused ones with a mark, its records, and its reference price and how many orders stand; or its refusal.
pub(crate) fn shown_day<B: Book + Drop>(
    heap: Global,
    market: Market,
    book: B,
    calls: &[Call],
) -> Result<String, Fail> {
    let mut answers = vec![in heap; NO_ANSWER; market.answers]?;
    let mut tape = vec![in heap; NO_RECORD; market.tape]?;
    let mut scratch = vec![in heap; NO_POINT; market.scratch]?;
    let mut line = String::new(heap);
    match trade_day(
        market.terms,
        book,
        market.rule,
        calls,
        &mut answers,
        &mut tape,
        &mut scratch,
    ) {
        Ok(end) => {
            for answer in answers.iter().take(end.calls) {
                let outcome = Result::<u64, Refusal>::try_from(*answer)?;
                write!(line, "{} ", Short(outcome))?;
            }
            write!(line, "|")?;
            for record in tape.iter().take(end.used) {
                write!(line, " {}", Short(*record))?;
            }
            let reference = end.reference;
            let standing = end.standing;
            write!(line, " | at {reference}, {standing} stand")?;
        }
        Err(why) => write!(line, "{}", Short(why))?,
    }
    Ok(line)
}

// A value as the test writes it, short and by numbers. `day` writes sentences, so each has a `Display` of its own.
#[derive(Clone, Copy)]
struct Short<T>(T);

impl fmt::Display for Short<Refusal> {
    fn fmt<W: fmt::Write>(&self, f: &mut fmt::Formatter<W>) -> fmt::Result {
        let number = u8::from(self.0);
        write!(f, "!{number}")
    }
}

impl fmt::Display for Short<Result<u64, Refusal>> {
    fn fmt<W: fmt::Write>(&self, f: &mut fmt::Formatter<W>) -> fmt::Result {
        match self.0 {
            Ok(value) => write!(f, "{value}"),
            Err(why) => write!(f, "{}", Short(why)),
        }
    }
}

impl fmt::Display for Short<TapeRecord> {
    fn fmt<W: fmt::Write>(&self, f: &mut fmt::Formatter<W>) -> fmt::Result {
        match self.0 {
            TapeRecord::Trade {
                buy,
                sell,
                price,
                quantity,
            } => write!(f, "{buy}+{sell}={quantity}@{price}"),
            TapeRecord::Withdrawal {
                number,
                quantity,
                reason,
            } => {
                let code = u8::from(reason);
                write!(f, "{number}-{quantity}({code})")
            }
        }
    }
}
