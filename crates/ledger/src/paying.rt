// Payments of which all are checked before one is made. The settlement's checks, which form a payment for each account, stand beside these and say why.
ghost use Rattle.std.specs.Prelude.{◌≡◌, ℕ, [], map, ◌+ℤ◌, None};
ghost use Rattle.faults.specs.Checks.{first_fault, verdict};
ghost use Rattle.ledger.specs.Meaning.{meaning, reading_of};
ghost use Rattle.ledger.specs.Payments.{PaysAll, due, known_check, range_check, range_checks, fault_of_all, made};

use crate::payment::Payment;
use crate::traits::{BalanceReader, CashLedger};
use faults::{Fault, Refusal, require};

// The first account to be paid that the ledger does not know.
#[tactic(auto, using(crate::proofs::Paid::turns))]
fn check_known<L: CashLedger>(ledger: &L, payments: &[Payment]) -> Result<(), Fault>
    ensures { result ≡ verdict tt (first_fault (map (known_check (meaning L.BalanceReader.balances L.CashLedger.terms ledger.now)) payments.now)) }
{
    for payment in payments {
        require(
            payment.is_zero() | ledger.is_known(payment.account),
            Refusal::UnknownAccount.at(payment.account),
        )?;
    }
    Ok(())
}

// The balance that payments leave to an account, where each of them is in range.
fn balance_after<L: CashLedger>(ledger: &L, payments: &[Payment], account: u32) -> i64
    requires { first_fault (range_checks (meaning L.BalanceReader.balances L.CashLedger.terms ledger.now) [] payments.now) ≡ None }
    ensures { result ≡ (reading_of (L.BalanceReader.balances ledger.now)).balance account +ℤ due payments.now account }
{
    let mut balance = ledger.balance_of(account);
    for payment in payments {
        if payment.account == account {
            balance += payment.amount;
        }
    }
    balance
}

// The first payment that is too large or takes its account out of the ledger's range.
#[tactic(auto, using(crate::proofs::Paid::turns))]
fn check_range<L: CashLedger>(ledger: &L, payments: &[Payment]) -> Result<(), Fault>
    ensures { result ≡ verdict tt (first_fault (range_checks (meaning L.BalanceReader.balances L.CashLedger.terms ledger.now) [] payments.now)) }
{
    let terms = ledger.terms();
    for (place, payment) in payments.iter().enumerate() {
        let balance = balance_after(ledger, &payments[..place], payment.account);
        require(
            payment.is_zero() | terms.reaches(balance, payment.amount),
            Refusal::OutOfRange.at(payment.account),
        )?;
    }
    Ok(())
}

// How many payments are made.
fn count_made(payments: &[Payment]) -> u64
    ensures { result ≡ made payments.now }
{
    payments.iter().filter(|payment| !payment.is_zero()).count() as u64
}

// Makes payments that have passed every check.
fn make_all<L: CashLedger>(ledger: &mut L, payments: &[Payment]) -> Result<(), Fault>
    requires { fault_of_all (meaning L.BalanceReader.balances L.CashLedger.terms ledger.old) payments.now ≡ None }
    ensures { PaysAll (meaning L.BalanceReader.balances L.CashLedger.terms ledger.old) payments.now result (meaning L.BalanceReader.balances L.CashLedger.terms ledger.new) }
{
    for payment in payments {
        if !payment.is_zero() {
            ledger.pay(payment.account, payment.amount)?;
        }
    }
    Ok(())
}

// Makes payments in their order. All are checked first: all accounts, then all balances, each with the payments before
// it counted, then the capacity. A payment of zero is not made, and never refused.
#[tactic(auto, using(crate::proofs::Paid::exits))]
pub fn pay_all<L: CashLedger>(ledger: &mut L, payments: &[Payment]) -> Result<(), Fault>
    ensures { PaysAll (meaning L.BalanceReader.balances L.CashLedger.terms ledger.old) payments.now result (meaning L.BalanceReader.balances L.CashLedger.terms ledger.new) }
{
    check_known(ledger, payments)?;
    check_range(ledger, payments)?;
    require(
        count_made(payments) <= ledger.capacity(),
        Refusal::NoCapacity,
    )?;
    make_all(ledger, payments)
}
