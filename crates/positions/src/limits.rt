// The limits of a position, of a day's trades and of the tables.

// Units of an account, long or short.
pub const MOST_UNITS: u64 = 125_000;

// Cost of a day's trades, in ten-thousandths of a dollar, above or below zero.
pub const MOST_COST: u64 = 4_000_000_000_000_000_000;

// The places of the two tables that are used.
pub const ACCOUNT_PLACES: usize = 64;

pub const TRADE_PLACES: usize = 512;

// The last ticket of a contract.
pub const LAST_TICKET: u32 = 10_000;
