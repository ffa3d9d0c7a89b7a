// What a trade does to one of its accounts.
ghost use Rattle.std.specs.Prelude.{◌≡◌, ◌^◌, ◌<◌, pos, neg_ℤ, unsigned_abs};
ghost use Rattle.positions.specs.Positions.{cost_of};

use crate::records::Trade;

// Units that an account gets, and their cost. No trade's are larger, whatever stands in its record.
#[derive(Clone, Copy)]
pub(crate) struct Change {
    pub(crate) units: i64,
    pub(crate) cost: i128,
    ghost few: { unsigned_abs units < 2 ^ 32 },
    ghost small: { unsigned_abs cost < 2 ^ 96 },
}

impl Change {
    // The buyer's change.
    pub(crate) fn bought(trade: Trade) -> Change
        ensures units { result.units ≡ pos trade.units }
        ensures cost { result.cost ≡ cost_of trade }
    {
        Change {
            units: i64::from(trade.units),
            cost: i128::from(trade.units) * i128::from(trade.price),
        }
    }

    // The other side's change.
    pub(crate) fn opposite(self) -> Change
        ensures units { result.units ≡ neg_ℤ self.units }
        ensures cost { result.cost ≡ neg_ℤ self.cost }
    {
        Change {
            units: -self.units,
            cost: -self.cost,
        }
    }
}
