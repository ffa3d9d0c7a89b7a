// The checks of all payments, before one is made. They are beside the ledger's own, which count the payments before each one and no costs:
// here each account is paid once, formed where it is asked for, and its units and cost are checked too.
ghost use Rattle.std.specs.Prelude.{◌≡◌, Bool, map, ℤ, Some, None};
ghost use Rattle.faults.specs.Checks.{Check, check, first_fault, verdict};
ghost use Rattle.ledger.specs.Meaning.{Meaning, meaning};
ghost use Rattle.ledger.specs.Payments.{made};
ghost use Rattle.table.specs.declared.keyed.Keyed.{Keyed};
ghost use Rattle.positions.specs.declared.records.Account.{Account};
ghost use Rattle.settlement.specs.Owed.{owed, owed_check};
ghost use Rattle.settlement.specs.Paying.{units_check, account_check, pay_checks};

use crate::payment::Repricing;
use faults::{Fault, Refusal, require};
use ledger::traits::{BalanceReader, CashLedger};
use positions::Account;
use table::Keyed;

// The first record that fails a test, refused under its account.
fn check_each<F: Fn(Keyed<Account>) -> bool>(
    records: &[Keyed<Account>],
    refusal: Refusal,
    passes: F,
) -> Result<(), Fault>
    requires { F.IsAlwaysCallable passes }
    ensures { (f : Keyed Account → Check) → ((x : Keyed Account) (b : Bool) → F.post passes x b → f x ≡ check b refusal x.key) → result ≡ verdict tt (first_fault (map f records.now)) }
{
    for record in records {
        require(passes(*record), refusal.at(record.key))?;
    }
    Ok(())
}

// Whether the ledger knows the account, or there is nothing to pay it.
#[tactic(auto, using(crate::proofs::Owed::known_shown))]
fn can_be_paid<L: CashLedger>(record: Keyed<Account>, ledger: &L, repricing: Repricing) -> bool
    ensures { result ≡ (account_check (meaning L.BalanceReader.balances L.CashLedger.terms ledger.now) repricing.last.value repricing.price.value «record»).passes }
{
    let payment = repricing.payment_to(record);
    payment.is_zero() | ledger.is_known(record.key)
}

// Whether the cost is within its limit, and the payment leaves its account in the ledger's range.
#[tactic(auto, unfolding(crate::specs::Owed::owed_check))]
fn stays_in_range<L: CashLedger>(record: Keyed<Account>, ledger: &L, repricing: Repricing) -> bool
    ensures { result ≡ (owed_check (meaning L.BalanceReader.balances L.CashLedger.terms ledger.now) repricing.last.value repricing.price.value «record»).passes }
{
    let payment = repricing.payment_to(record);
    let balance = ledger.balance_of(record.key);
    let reaches = ledger.terms().reaches(balance, payment.amount);
    record.value.has_cost_within() & (payment.is_zero() | reaches)
}

// The first account to be paid that the ledger does not know.
#[tactic(auto, unfolding(crate::specs::Paying::account_check))]
fn check_known<L: CashLedger>(
    records: &[Keyed<Account>],
    ledger: &L,
    repricing: Repricing,
) -> Result<(), Fault>
    ensures { result ≡ verdict tt (first_fault (map (account_check (meaning L.BalanceReader.balances L.CashLedger.terms ledger.now) repricing.last.value repricing.price.value) records.now)) }
{
    check_each(records, Refusal::UnknownAccount, |record| {
        can_be_paid(record, ledger, repricing)
    })
}

// The first account whose units are past their limit.
#[tactic(auto, unfolding(crate::specs::Paying::units_check))]
fn check_units(records: &[Keyed<Account>]) -> Result<(), Fault>
    ensures { result ≡ verdict tt (first_fault (map units_check records.now)) }
{
    check_each(records, Refusal::AccountUnits, |record| {
        record.value.has_units_within()
    })
}

// The first account whose cost is past its limit, or that its payment would take out of range.
#[tactic(auto, unfolding(crate::specs::Owed::owed_check))]
fn check_range<L: CashLedger>(
    records: &[Keyed<Account>],
    ledger: &L,
    repricing: Repricing,
) -> Result<(), Fault>
    ensures { result ≡ verdict tt (first_fault (map (owed_check (meaning L.BalanceReader.balances L.CashLedger.terms ledger.now) repricing.last.value repricing.price.value) records.now)) }
{
    check_each(records, Refusal::OutOfRange, |record| {
        stays_in_range(record, ledger, repricing)
    })
}

// How many payments there are to make: one chain, as the ledger's count of a row is.
fn count_payments(records: &[Keyed<Account>], repricing: Repricing) -> u64
    ensures { result ≡ made (map (owed repricing.last.value repricing.price.value) records.now) }
{
    records
        .iter()
        .filter(|record| !repricing.payment_to(**record).is_zero())
        .count() as u64
}

// All accounts first, then all units, then all balances, then the capacity.
#[tactic(auto, using(crate::proofs::Passing::ending))]
pub(crate) fn check_payments<L: CashLedger>(
    records: &[Keyed<Account>],
    ledger: &L,
    repricing: Repricing,
) -> Result<(), Fault>
    ensures { result ≡ verdict tt (first_fault (pay_checks (meaning L.BalanceReader.balances L.CashLedger.terms ledger.now) repricing.last.value (Some repricing.price.value) records.now)) }
{
    check_known(records, ledger, repricing)?;
    check_units(records)?;
    check_range(records, ledger, repricing)?;
    require(
        count_payments(records, repricing) <= ledger.capacity(),
        Refusal::NoCapacity,
    )?;
    Ok(())
}

// Without a price there are no payments: it is refused in any case, for units past their limit first.
#[tactic(auto, using(crate::proofs::Passing::unpriced))]
pub(crate) fn check_unpriced(records: &[Keyed<Account>]) -> Result<(), Fault>
    ensures { (m : Meaning) (last : ℤ) → result ≡ verdict tt (first_fault (pay_checks m last None records.now)) }
{
    check_units(records)?;
    Err(Refusal::NotAdmitted.into())
}
