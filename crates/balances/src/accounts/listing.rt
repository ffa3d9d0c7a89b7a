ghost use Rattle.std.specs.Prelude.{◌≡◌, ℕ, []};
ghost use Rattle.std.specs.List.{list_all};
ghost use Rattle.ledger.specs.Limits.{admitted};
ghost use Rattle.faults.specs.Checks.{verdict};
ghost use Rattle.balances.specs.Lists.{Adds, has, list_fault};
ghost use Rattle.balances.specs.Accounts.{Lists, listed};

use super::Accounts;
use crate::place::PLACES;
use faults::{Fault, Refusal, require};
use ledger::limits::is_admitted;

// Whether a list of accounts is refused: by 4, then by 37, which names the 65th different one.
pub fn check_list(list: &[u32]) -> Result<(), Fault>
    ensures { result ≡ verdict tt (list_fault list.now) }
{
    Accounts::of(list)?;
    Ok(())
}

fn are_admitted(list: &[u32]) -> bool
    ensures { result ≡ list_all admitted list.now }
{
    list.iter().all(|account| is_admitted(*account))
}

impl Accounts {
    // No accounts.
    pub fn new() -> Accounts
        ensures { listed result ≡ [] }
    {
        Accounts {
            numbers: [0; PLACES],
            count: 0,
        }
    }

    // Their numbers, in order.
    pub fn numbers(&self) -> &[u32]
        ensures { result.now ≡ listed self.now }
    {
        &self.numbers[..self.count]
    }

    // Whether an account is one of them.
    pub fn has(&self, account: u32) -> bool
        ensures { result ≡ has (listed self.now) account }
    {
        self.numbers().contains(&account)
    }

    // Adds an account unless it is listed already.
    pub fn add(&mut self, account: u32) -> Result<(), Fault>
        ensures { Adds (listed self.old) account result (listed self.new) }
    {
        if self.has(account) {
            return Ok(());
        }
        require(self.count < PLACES, Refusal::NoAccountPlace.at(account))?;
        self.numbers[self.count] = account;
        self.count += 1;
        Ok(())
    }

    // The different accounts of a list.
    pub(crate) fn of(list: &[u32]) -> Result<Accounts, Fault>
        ensures { Lists list.now result }
    {
        require(are_admitted(list), Refusal::AccountNumber)?;
        let mut accounts = Accounts::new();
        for account in list {
            accounts.add(*account)?;
        }
        Ok(accounts)
    }
}
