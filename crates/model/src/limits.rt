// The limits of the market's numbers.

// The largest tick.
pub const MAX_TICK: u32 = 1_000;

// The highest price, in whole dinars.
pub const MAX_PRICE: u32 = 99_999;

// The widest band, in percent.
pub const MAX_BAND: u32 = 99;

// The highest number of a member.
pub const MAX_MEMBER: u32 = 999;

// The largest quantity of an order.
pub const MAX_QUANTITY: u64 = 1_000_000_000;

// The highest number of an order.
pub const MAX_NUMBER: u64 = 999_999_999;

// The most places of a tape that are used.
pub const MAX_PLACES: usize = 65_536;
