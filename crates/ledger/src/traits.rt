ghost use Rattle.std.specs.Prelude.{◌≡◌, ℕ, ℤ, Option};
ghost use Rattle.ledger.specs.declared.terms.Terms.{Terms};
ghost use Rattle.ledger.specs.Meaning.{SoundReading, SoundTerms, meaning, reading_of};
ghost use Rattle.ledger.specs.Payments.{Pays};

use crate::terms::Terms;
use faults::Fault;

// Tells which accounts are known, and their balances.
pub trait BalanceReader {
    ghost balances: { Self → ℕ → Option ℤ };

    // What each reader shows: an account that is not known has a balance of 0, and each balance is within the limits.
    ghost sound: { SoundReading (λ s. reading_of (balances s)) };

    // The balance of an account, if it is known.
    fn balance(&self, account: u32) -> Option<i64>
        ensures { result ≡ balances self.now account };

    fn is_known(&self, account: u32) -> bool
        ensures { result ≡ (reading_of (balances self.now)).known account }
    {
        self.balance(account).is_some()
    }

    // An account that is not known has a balance of 0.
    fn balance_of(&self, account: u32) -> i64
        ensures { result ≡ (reading_of (balances self.now)).balance account }
    {
        self.balance(account).unwrap_or(0)
    }
}

// A balance reader that also pays. A clause over any ledger writes its meaning out, `meaning L.BalanceReader.balances L.CashLedger.terms`: of a ghost
// member with that for its default a clause could not know that no ledger gives another.
pub trait CashLedger: BalanceReader {
    ghost terms: { Self → Terms };

    // What each ledger shows besides: its lowest and its highest balance are within the limits.
    ghost bounded: { SoundTerms terms };

    fn terms(&self) -> Terms
        ensures { result ≡ terms self.now };

    // How many payments it still takes.
    fn capacity(&self) -> u64
        ensures { result ≡ (terms self.now).capacity }
    {
        self.terms().capacity
    }

    fn lowest_balance(&self) -> i64
        ensures { result ≡ (terms self.now).lowest }
    {
        self.terms().lowest
    }

    fn highest_balance(&self) -> i64
        ensures { result ≡ (terms self.now).highest }
    {
        self.terms().highest
    }

    // An account and an amount, and no `Payment`: most ledgers would take it apart at once.
    fn pay(&mut self, account: u32, amount: i64) -> Result<(), Fault>
        ensures { Pays (meaning Self.BalanceReader.balances terms self.old) account amount result (meaning Self.BalanceReader.balances terms self.new) };
}
