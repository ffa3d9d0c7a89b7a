// The two sides of a trade: the records that it reads, and the changes that it would make.
ghost use Rattle.std.specs.Prelude.{◌≡◌, true, neg_ℤ};
ghost use Rattle.table.specs.View.{records};
ghost use Rattle.positions.specs.Positions.{account_of, changed, more};
ghost use Rattle.positions.specs.Trading.{cost_holds, units_hold};

use crate::change::Change;
use crate::limits::{MOST_COST, MOST_UNITS};
use crate::records::{Account, Trade};
use table::Table;

// An account's record, and the change that is to be made to it.
#[derive(Clone, Copy)]
pub(crate) struct Side {
    pub(crate) account: Account,
    pub(crate) change: Change,
}

impl Side {
    // The side of an account, with nothing in the record of one that is not in the table.
    pub(crate) fn of(accounts: &Table<'_, Account>, number: u32, change: Change) -> Side
        ensures account { result.account ≡ account_of number (records accounts.now) }
        ensures change { result.change ≡ change }
    {
        let held = accounts.find(number);
        Side {
            account: held.map(|held| held.value).unwrap_or_default(),
            change,
        }
    }

    // The seller's side, read after the buyer's change. An account that sells to itself comes back to where it was, so its second change meets the
    // limits that its first meets.
    #[tactic(auto, using(crate::proofs::Positions::changed_same, crate::proofs::Positions::changed_other, crate::proofs::Positions::units_back, crate::proofs::Positions::cost_back))]
    pub(crate) fn of_seller(accounts: &Table<'_, Account>, trade: Trade, change: Change) -> Side
        ensures units { units_hold result.change.units result.account ≡ units_hold (neg_ℤ change.units) (account_of trade.seller (changed trade.buyer change.units change.cost (records accounts.now))) }
        ensures cost { cost_holds result.change.cost result.account ≡ cost_holds (neg_ℤ change.cost) (account_of trade.seller (changed trade.buyer change.units change.cost (records accounts.now))) }
    {
        let made = if trade.seller == trade.buyer {
            change
        } else {
            change.opposite()
        };
        Side::of(accounts, trade.seller, made)
    }

    // Whether the units are within the limit before and after, and those at the last close.
    #[tactic(auto, unfolding(crate::specs::Trading::units_hold))]
    pub(crate) fn units_hold(self) -> bool
        ensures { result ≡ units_hold self.change.units self.account }
    {
        self.account.has_units_within()
            && (self.account.units + self.change.units).unsigned_abs() <= MOST_UNITS
    }

    // Whether the cost is within the limit before and after.
    #[tactic(auto, unfolding(crate::specs::Trading::cost_holds))]
    pub(crate) fn cost_holds(self) -> bool
        ensures { result ≡ cost_holds self.change.cost self.account }
    {
        let after = i128::from(self.account.cost) + self.change.cost;
        self.account.has_cost_within() & (after.unsigned_abs() <= u128::from(MOST_COST))
    }

    // The record with the change made.
    #[tactic(auto, using(crate::proofs::Holds::units_fit, crate::proofs::Holds::cost_fits))]
    pub(crate) fn after(self) -> Account
        requires units { units_hold self.change.units self.account ≡ true }
        requires cost { cost_holds self.change.cost self.account ≡ true }
        ensures { result ≡ more self.change.units self.change.cost self.account }
    {
        Account {
            units: self.account.units + self.change.units,
            cost: (i128::from(self.account.cost) + self.change.cost) as i64,
            ..self.account
        }
    }
}
