ghost use Rattle.std.specs.Prelude.{◌≡◌};
ghost use Rattle.settlement.specs.Paying.{left_by};

use positions::Account;

// What ends: a day, or the contract. An enum and no closure: there are these two kinds and no other, and what is promised is told by them.
#[derive(Clone, Copy, PartialEq, Eq, Debug)]
pub enum Ending {
    Close,
    Settlement,
}

impl Ending {
    // What it leaves of a record: a close empties the day's cost, the settlement has none.
    pub(crate) fn leaves(self, account: Account) -> Account
        ensures { result ≡ left_by self account }
    {
        let cost = match self {
            Ending::Close => 0,
            Ending::Settlement => account.cost,
        };
        Account {
            units: account.units,
            units_at_close: account.units,
            cost,
        }
    }
}
