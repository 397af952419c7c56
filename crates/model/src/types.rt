// The side of the market on which an order stands.
#[derive(Clone, Copy, Debug, PartialEq, Eq)]
pub enum Side {
    Buy,
    Sell,
}

// A limit price in whole dinars, or the mark market: any price will do.
// An enum, and no Option: market is a mark that an order has, and not a price that is missing.
#[derive(Clone, Copy, Debug, PartialEq, Eq)]
pub enum OrderPrice {
    Market,
    Limit(u32),
}

// What a member asks beyond side, price and quantity: all of it now or nothing, or what can trade now.
#[derive(Clone, Copy, Debug, PartialEq, Eq)]
pub enum Condition {
    Plain,
    FillOrKill,
    ImmediateOrCancel,
}

// An order as its member enters it.
#[derive(Clone, Copy, Debug, PartialEq, Eq)]
pub struct Entry {
    pub member: u32,
    pub side: Side,
    pub price: OrderPrice,
    pub quantity: u64,
    pub condition: Condition,
}

// An order that stands, with what is left of its quantity.
#[derive(Clone, Copy, Debug, PartialEq, Eq)]
pub struct Order {
    pub number: u64,
    pub member: u32,
    pub side: Side,
    pub price: OrderPrice,
    pub left: u64,
}

// A grid price with what is bid and what is offered at it.
#[derive(Clone, Copy, Debug, PartialEq, Eq)]
pub struct Point {
    pub price: u32,
    pub demand: u64,
    pub supply: u64,
}

// Where a session is in its day. A called price waits for its strike or its put-back.
#[derive(Clone, Copy, Debug, PartialEq, Eq)]
pub enum Phase {
    PreOpening,
    Random,
    Called { price: u32, quantity: u64 },
    Trading,
    Closed,
}

// How far a session has come in its day: its phase, the price that the static band lies about,
// the last order number given, and how many places of the tape are used.
#[derive(Clone, Copy, Debug, PartialEq, Eq)]
pub struct DayState {
    pub phase: Phase,
    pub reference: u32,
    pub last: u64,
    pub used: usize,
}

// Why a call is refused, each with the number by which answers and reports name it.
#[derive(Clone, Copy, Debug, PartialEq, Eq)]
pub enum Refusal {
    SettingsOutOfRange = 1,
    IndicativePrice = 2,
    BookNotEmpty = 3,
    WrongPhase = 4,
    UnknownMember = 5,
    Quantity = 6,
    Price = 7,
    ConditionOutsideTrading = 8,
    NumbersExhausted = 9,
    CapacityReached = 10,
    TapeFull = 11,
    UnknownOrder = 12,
    ForeignCalledPrice = 13,
    ScratchTooShort = 14,
    AnswersTooShort = 15,
}

// Why an order, or what is left of it, is withdrawn, each with the number by which reports name it.
#[derive(Clone, Copy, Debug, PartialEq, Eq)]
pub enum Reason {
    ByMember = 1,
    AfterAuction = 2,
    ConditionUnmet = 3,
    NothingOpposite = 4,
    AtClose = 5,
}

// What a place of the tape holds.
// An enum, and no Result: neither of the two is a failure.
#[derive(Clone, Copy, Debug, PartialEq, Eq)]
pub enum TapeRecord {
    Trade {
        buy: u64,
        sell: u64,
        price: u32,
        quantity: u64,
    },
    Withdrawal {
        number: u64,
        quantity: u64,
        reason: Reason,
    },
}

// One call of a list. An auction is a call for a price and its strike.
#[derive(Clone, Copy, Debug, PartialEq, Eq)]
pub enum Call {
    Enter(Entry),
    Withdraw { member: u32, number: u64 },
    BeginRandom,
    Auction,
    Close,
}

// What a call of a list gives: a refusal's number, 0 when done, and its answer, 0 when refused.
// Numbers, and no Result: the rules have an answer of a list written as two numbers; `From` and `TryFrom` turn one into the other.
#[derive(Clone, Copy, Debug, PartialEq, Eq)]
pub struct Answer {
    pub refusal: u8,
    pub answer: u64,
}
