ghost use Rattle.ledger_tests.specs.Purse.{balances_of, purse_sound, terms_of};

use balances::balance::Balance;
use faults::{Fault, Refusal};
use ledger::terms::Terms;
use ledger::traits::{BalanceReader, CashLedger};

// A ledger of one account with a range of its own. Each payment, one of zero too, lowers its capacity by one.
#[derive(Clone, Copy)]
pub struct Purse {
    pub account: u32,
    pub balance: Balance,
    pub lowest: Balance,
    pub highest: Balance,
    pub left: u64,
}

impl BalanceReader for Purse {
    ghost balances = { balances_of };

    ghost sound = { purse_sound (λ p. p.account) (λ p. p.balance.value) (λ p. p.balance.within) };

    fn balance(&self, account: u32) -> Option<i64> {
        (account == self.account).then_some(self.balance.value)
    }
}

impl CashLedger for Purse {
    ghost terms = { terms_of };

    ghost bounded = { record { lowest = λ p. p.lowest.within; highest = λ p. p.highest.within } };

    fn terms(&self) -> Terms {
        Terms {
            capacity: self.left,
            lowest: self.lowest.value,
            highest: self.highest.value,
        }
    }

    fn pay(&mut self, account: u32, amount: i64) -> Result<(), Fault> {
        let balance = self
            .balance(account)
            .ok_or(Refusal::UnknownAccount.at(account))?;
        // As in the journal: of these two lines one question of the trait would save one.
        self.terms().check(account, balance, amount)?;
        self.balance = Balance {
            value: balance + amount,
        };
        self.left -= 1;
        Ok(())
    }
}
