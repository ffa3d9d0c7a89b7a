// The payment of one record.
ghost use Rattle.std.specs.Prelude.{◌≡◌, ◌≤◌, true, ◌-ℤ◌, ◌*ℤ◌, unsigned_abs};
ghost use Rattle.positions.specs.Limits.{units_within};
ghost use Rattle.settlement.specs.Owed.{formed, owed};

use ledger::payment::Payment;
use positions::Account;
use prices::price::Price;
use table::Keyed;

// A price, and the last one before it.
#[derive(Clone, Copy, PartialEq, Eq)]
pub struct Repricing {
    pub last: Price,
    pub price: Price,
}

impl Repricing {
    // The payment to a record's account: of zero where the record forms none.
    #[tactic(auto, unfolding(crate::specs::Owed::owed))]
    pub fn payment_to(self, record: Keyed<Account>) -> Payment
        ensures { result ≡ owed self.last.value self.price.value «record» }
    {
        Payment {
            account: record.key,
            amount: self.payment_of(record.value).unwrap_or(0),
        }
    }

    // The payment of a record; one past its limits forms none.
    #[tactic(auto, unfolding(crate::specs::Owed::formed))]
    fn payment_of(self, account: Account) -> Option<i64>
        ensures { result ≡ formed self.last.value self.price.value account }
    {
        if account.has_units_within() & account.has_cost_within() {
            let earned = self.gain(account) + self.worth(account);
            Some(earned - account.cost)
        } else {
            None
        }
    }

    // What units held since the last close gain from one price to the other.
    fn gain(self, account: Account) -> i64
        requires { units_within account ≡ true }
        ensures value { result ≡ account.units_at_close *ℤ (self.price.value -ℤ self.last.value) }
        ensures bound { unsigned_abs result ≤ 1000000000000000 }
    {
        account.units_at_close * (self.price.value - self.last.value)
    }

    // What the units traded since then are worth.
    fn worth(self, account: Account) -> i64
        requires { units_within account ≡ true }
        ensures value { result ≡ (account.units -ℤ account.units_at_close) *ℤ self.price.value }
        ensures bound { unsigned_abs result ≤ 1000000000000000 }
    {
        (account.units - account.units_at_close) * self.price.value
    }
}
