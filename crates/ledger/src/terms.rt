// What payments a ledger still takes.
ghost use Rattle.std.specs.Prelude.{◌≡◌};
ghost use Rattle.faults.specs.Checks.{first_fault, verdict};
ghost use Rattle.ledger.specs.Limits.{reaches as reaches_in};
ghost use Rattle.ledger.specs.Meaning.{widest as widest_of};
ghost use Rattle.ledger.specs.Payments.{term_checks};

use crate::limits::{HIGHEST_BALANCE, LARGEST_PAYMENT, LOWEST_BALANCE};
use faults::{Fault, Refusal, require};

// How many more payments there may be, and between which balances.
#[derive(Clone, Copy, PartialEq, Eq, Debug)]
pub struct Terms {
    pub capacity: u64,
    pub lowest: i64,
    pub highest: i64,
}

impl Terms {
    // The widest range of balances.
    pub fn widest(capacity: u64) -> Terms
        ensures { result ≡ widest_of capacity }
    {
        Terms {
            capacity,
            lowest: LOWEST_BALANCE,
            highest: HIGHEST_BALANCE,
        }
    }

    // Whether a payment is small enough and leaves a balance in the range.
    pub fn reaches(self, balance: i64, amount: i64) -> bool
        ensures { result ≡ reaches_in self.lowest self.highest balance amount }
    {
        let new_balance = i128::from(balance) + i128::from(amount);
        let small = amount.unsigned_abs() <= LARGEST_PAYMENT;
        let not_low = i128::from(self.lowest) <= new_balance;
        let not_high = new_balance <= i128::from(self.highest);
        small & not_low & not_high
    }

    // Whether a payment to a known account with this balance is taken: its range first, then the capacity.
    pub fn check(self, account: u32, balance: i64, amount: i64) -> Result<(), Fault>
        ensures { result ≡ verdict tt (first_fault (term_checks self account balance amount)) }
    {
        require(
            self.reaches(balance, amount),
            Refusal::OutOfRange.at(account),
        )?;
        require(self.capacity > 0, Refusal::NoCapacity)?;
        Ok(())
    }
}
