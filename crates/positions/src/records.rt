// The two kinds of record that a book keeps in ordered tables.
ghost use Rattle.std.specs.Prelude.{◌≡◌};
ghost use Rattle.positions.specs.Limits.{cost_within, units_within};

use crate::limits::{MOST_COST, MOST_UNITS};

// An account's position, under its number. Cost is that of the day's trades, in ten-thousandths of a dollar.
#[derive(Clone, Copy, PartialEq, Eq, Debug, Default)]
pub struct Account {
    pub units: i64,
    pub units_at_close: i64,
    pub cost: i64,
}

impl Account {
    // Whether the units, and those at the last close, are within their limit.
    pub fn has_units_within(self) -> bool
        ensures { result ≡ units_within self }
    {
        (self.units.unsigned_abs() <= MOST_UNITS)
            & (self.units_at_close.unsigned_abs() <= MOST_UNITS)
    }

    // Whether the cost is within its limit.
    pub fn has_cost_within(self) -> bool
        ensures { result ≡ cost_within self }
    {
        self.cost.unsigned_abs() <= MOST_COST
    }
}

// A trade of the day, under its ticket. The price is in ten-thousandths of a point.
#[derive(Clone, Copy, PartialEq, Eq, Debug)]
pub struct Trade {
    pub buyer: u32,
    pub seller: u32,
    pub units: u32,
    pub price: i64,
}
