ghost use Rattle.std.specs.Prelude.{◌≡◌};
ghost use Rattle.book.specs.Plain.{plain};
ghost use Rattle.crossing.specs.Turning.{entry_of, call_of, answer_of, raw_answer, price_of, reason_of, record_of, raw_record, point_of, raw_point, raw_order, phase_number};

use crate::raw::{RawAnswer, RawCall, RawOrder, RawPoint, RawRecord};
use book::StandingOrder;
use model::{Answer, Call, Condition, Entry, OrderPrice, Phase, Point, Reason, Side, TapeRecord};

impl From<RawCall> for Entry {
    ghost from_gives = { λ raw entry. entry ≡ entry_of raw };

    fn from(raw: RawCall) -> Entry {
        Entry {
            member: raw.member,
            side: if raw.side == 0 { Side::Buy } else { Side::Sell },
            price: if raw.market == 0 {
                OrderPrice::Limit(raw.price)
            } else {
                OrderPrice::Market
            },
            quantity: raw.quantity,
            condition: match raw.condition {
                0 => Condition::Plain,
                1 => Condition::FillOrKill,
                _ => Condition::ImmediateOrCancel,
            },
        }
    }
}

impl From<RawCall> for Call {
    ghost from_gives = { λ raw call. call ≡ call_of raw };

    fn from(raw: RawCall) -> Call {
        match raw.kind {
            0 => Call::Enter(Entry::from(raw)),
            1 => Call::Withdraw {
                member: raw.member,
                number: raw.number,
            },
            2 => Call::BeginRandom,
            3 => Call::Auction,
            _ => Call::Close,
        }
    }
}

// A refusal's number is the lowest byte of what stands there: no number from C is refused.
impl From<RawAnswer> for Answer {
    ghost from_gives = { λ raw answer. answer ≡ answer_of raw };

    fn from(raw: RawAnswer) -> Answer {
        Answer {
            refusal: (raw.refusal % 0x100) as u8,
            answer: raw.answer,
        }
    }
}

impl From<Answer> for RawAnswer {
    ghost from_gives = { λ answer raw. raw ≡ raw_answer answer };

    fn from(answer: Answer) -> RawAnswer {
        RawAnswer {
            refusal: u64::from(answer.refusal),
            answer: answer.answer,
        }
    }
}

// A price is the lower half of what stands there. No `From`: neither number is of this crate,
// and the library's `TryFrom` refuses a higher one.
fn price_of(number: u64) -> u32
    ensures { result ≡ price_of number }
{
    (number % 0x1_0000_0000) as u32
}

// A number that names no reason is read as the close. No `From`: neither a number nor a reason is of this crate.
fn reason_of(number: u64) -> Reason
    ensures { result ≡ reason_of number }
{
    let Ok(number) = u8::try_from(number) else {
        return Reason::AtClose;
    };
    Reason::try_from(number).unwrap_or(Reason::AtClose)
}

// What a place of the tape holds before it is used may be any numbers.
impl From<RawRecord> for TapeRecord {
    ghost from_gives = { λ raw tape_record. tape_record ≡ record_of raw };

    fn from(raw: RawRecord) -> TapeRecord {
        if raw.kind == 0 {
            TapeRecord::Trade {
                buy: raw.first,
                sell: raw.second,
                price: price_of(raw.price),
                quantity: raw.quantity,
            }
        } else {
            TapeRecord::Withdrawal {
                number: raw.first,
                quantity: raw.quantity,
                reason: reason_of(raw.second),
            }
        }
    }
}

impl From<TapeRecord> for RawRecord {
    ghost from_gives = { λ tape_record raw. raw ≡ raw_record tape_record };

    fn from(record: TapeRecord) -> RawRecord {
        match record {
            TapeRecord::Trade {
                buy,
                sell,
                price,
                quantity,
            } => RawRecord {
                kind: 0,
                first: buy,
                second: sell,
                price: u64::from(price),
                quantity,
            },
            TapeRecord::Withdrawal {
                number,
                quantity,
                reason,
            } => RawRecord {
                kind: 1,
                first: number,
                second: u64::from(u8::from(reason)),
                price: 0,
                quantity,
            },
        }
    }
}

impl From<RawPoint> for Point {
    ghost from_gives = { λ raw point. point ≡ point_of raw };

    fn from(raw: RawPoint) -> Point {
        Point {
            price: price_of(raw.price),
            demand: raw.demand,
            supply: raw.supply,
        }
    }
}

impl From<Point> for RawPoint {
    ghost from_gives = { λ point raw. raw ≡ raw_point point };

    fn from(point: Point) -> RawPoint {
        RawPoint {
            price: u64::from(point.price),
            demand: point.demand,
            supply: point.supply,
        }
    }
}

impl From<StandingOrder> for RawOrder {
    ghost from_gives = { λ order raw. raw ≡ raw_order (plain order) };

    fn from(order: StandingOrder) -> RawOrder {
        RawOrder {
            number: order.number,
            member: u64::from(order.member),
            side: match order.side {
                Side::Buy => 0,
                Side::Sell => 1,
            },
            price: match order.price {
                OrderPrice::Market => 0,
                OrderPrice::Limit(price) => u64::from(price),
            },
            left: order.left,
        }
    }
}

// The number by which the end of a day names its phase. No `From`: neither a phase nor a number is of this crate.
pub(crate) fn phase_number(phase: Phase) -> u64
    ensures { result ≡ phase_number phase }
{
    match phase {
        Phase::PreOpening => 0,
        Phase::Random => 1,
        Phase::Called { .. } => 2,
        Phase::Trading => 3,
        Phase::Closed => 4,
    }
}
