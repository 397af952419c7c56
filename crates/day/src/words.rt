use model::{Call, Condition, Entry, OrderPrice, Refusal, Side, TapeRecord};
use std::fmt;

// A value in the words of the page.
#[derive(Clone, Copy)]
pub(crate) struct Words<T>(pub(crate) T);

impl fmt::Display for Words<Side> {
    fn fmt<W: fmt::Write>(&self, f: &mut fmt::Formatter<W>) -> fmt::Result {
        f.write_str(match self.0 {
            Side::Buy => "buys",
            Side::Sell => "sells",
        })
    }
}

impl fmt::Display for Words<OrderPrice> {
    fn fmt<W: fmt::Write>(&self, f: &mut fmt::Formatter<W>) -> fmt::Result {
        match self.0 {
            OrderPrice::Market => f.write_str("at market"),
            OrderPrice::Limit(price) => write!(f, "at {price}"),
        }
    }
}

impl fmt::Display for Words<Condition> {
    fn fmt<W: fmt::Write>(&self, f: &mut fmt::Formatter<W>) -> fmt::Result {
        f.write_str(match self.0 {
            Condition::Plain => "",
            Condition::FillOrKill => ", fill or kill",
            Condition::ImmediateOrCancel => ", immediate or cancel",
        })
    }
}

impl fmt::Display for Words<Entry> {
    fn fmt<W: fmt::Write>(&self, f: &mut fmt::Formatter<W>) -> fmt::Result {
        let Words(entry) = *self;
        let member = entry.member;
        let verb = Words(entry.side);
        let quantity = entry.quantity;
        let price = Words(entry.price);
        let condition = Words(entry.condition);
        write!(f, "{member} {verb} {quantity} {price}{condition}")
    }
}

impl fmt::Display for Words<Call> {
    fn fmt<W: fmt::Write>(&self, f: &mut fmt::Formatter<W>) -> fmt::Result {
        match self.0 {
            Call::Enter(entry) => write!(f, "{}", Words(entry)),
            Call::Withdraw { member, number } => write!(f, "{member} withdraws order {number}"),
            Call::BeginRandom => f.write_str("random period"),
            Call::Auction => f.write_str("auction"),
            Call::Close => f.write_str("close"),
        }
    }
}

impl fmt::Display for Words<Refusal> {
    fn fmt<W: fmt::Write>(&self, f: &mut fmt::Formatter<W>) -> fmt::Result {
        let why = self.0;
        let number = u8::from(why);
        write!(f, "refused: {why} ({number})")
    }
}

impl fmt::Display for Words<TapeRecord> {
    fn fmt<W: fmt::Write>(&self, f: &mut fmt::Formatter<W>) -> fmt::Result {
        match self.0 {
            TapeRecord::Trade {
                buy,
                sell,
                price,
                quantity,
            } => write!(f, "trade: {quantity} at {price}, buy {buy}, sell {sell}"),
            TapeRecord::Withdrawal {
                number,
                quantity,
                reason,
            } => {
                let code = u8::from(reason);
                write!(f, "withdrawal: {quantity} of {number}, {reason} ({code})")
            }
        }
    }
}

// A call that is done, with what it answers.
#[derive(Clone, Copy)]
pub(crate) struct Done {
    pub(crate) call: Call,
    pub(crate) answer: u64,
}

impl fmt::Display for Done {
    fn fmt<W: fmt::Write>(&self, f: &mut fmt::Formatter<W>) -> fmt::Result {
        let answer = self.answer;
        match self.call {
            Call::Enter(_) => write!(f, "order {answer}"),
            Call::Withdraw { .. } => write!(f, "{answer} withdrawn"),
            Call::BeginRandom => f.write_str("begun"),
            Call::Auction => write!(f, "{answer} traded"),
            Call::Close => write!(f, "{answer} orders withdrawn"),
        }
    }
}
