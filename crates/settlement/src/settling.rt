// The payments themselves, and the records that they leave.
ghost use Rattle.std.specs.Prelude.{◌≡◌, map, None, Ok};
ghost use Rattle.faults.specs.Checks.{first_fault};
ghost use Rattle.ledger.specs.Meaning.{meaning};
ghost use Rattle.ledger.specs.Payments.{Paid, fault_of_all};
ghost use Rattle.table.specs.View.{SamePlaces, records as records_of};
ghost use Rattle.settlement.specs.Owed.{owed, priced};
ghost use Rattle.settlement.specs.Paying.{Settles, pay_checks};

use crate::checking::{check_payments, check_unpriced};
use crate::ending::Ending;
use crate::payment::Repricing;
use faults::Fault;
use ledger::traits::{BalanceReader, CashLedger};
use positions::Account;
use prices::price::Price;
use table::{Keyed, Table};

// Makes payments that have passed every check, in table order. The ledger's own loop asks the same of its callers, which no public function may.
fn pay_all<L: CashLedger>(
    records: &[Keyed<Account>],
    ledger: &mut L,
    repricing: Repricing,
) -> Result<(), Fault>
    requires { fault_of_all (meaning L.BalanceReader.balances L.CashLedger.terms ledger.old) (map (owed repricing.last.value repricing.price.value) records.now) ≡ None }
    ensures answer { result ≡ Ok tt }
    ensures paid { Paid (meaning L.BalanceReader.balances L.CashLedger.terms ledger.old) (map (owed repricing.last.value repricing.price.value) records.now) (meaning L.BalanceReader.balances L.CashLedger.terms ledger.new) }
{
    for record in records {
        let payment = repricing.payment_to(*record);
        if !payment.is_zero() {
            ledger.pay(payment.account, payment.amount)?;
        }
    }
    Ok(())
}

// Pays every account of the table at a price after the last one, in table order, and carries the records over. All is
// checked before the first payment, and a refusal changes nothing. A value that is not admitted gives no price, so `last` stands beside
// it and not with it in a `Repricing`.
pub fn settle_accounts<L: CashLedger>(
    accounts: &mut Table<'_, Account>,
    ledger: &mut L,
    ending: Ending,
    last: Price,
    price: Option<Price>,
) -> Result<(), Fault>
    ensures outcome { Settles (first_fault (pay_checks (meaning L.BalanceReader.balances L.CashLedger.terms ledger.old) last.value (priced price) (records_of accounts.old))) ending last.value (priced price) result (records_of accounts.old) (records_of accounts.new) (meaning L.BalanceReader.balances L.CashLedger.terms ledger.old) (meaning L.BalanceReader.balances L.CashLedger.terms ledger.new) }
    ensures places { SamePlaces accounts.old accounts.new }
{
    let records = accounts.records();
    let Some(price) = price else {
        return check_unpriced(records);
    };
    let repricing = Repricing { last, price };
    check_payments(records, ledger, repricing)?;
    pay_all(records, ledger, repricing)?;
    accounts.map_values(|account| ending.leaves(account));
    Ok(())
}
