ghost use Rattle.std.specs.Prelude.{◌≡◌, ◌≤◌, unsigned_abs};
ghost use Rattle.ledger.specs.Meaning.{meaning};
ghost use Rattle.ledger.specs.Payments.{Pays};
ghost use Rattle.cents.specs.Layer.{NewLayer, layer, layer_balances, layer_terms, over};
ghost use Rattle.cents.specs.Sends.{PaysCents, Sends};
ghost use Rattle.cents.specs.Sound.{layer_bounded, layer_sound};

use crate::rest::Rest;
use balances::rows::Rows;
use faults::{Fault, Refusal};
use ledger::limits::HIGHEST_BALANCE;
use ledger::terms::Terms;
use ledger::traits::{BalanceReader, CashLedger};
use prices::cents::{CENT, split};

// A ledger below, which is paid whole cents, and the rests of the layer's accounts.
#[derive(Drop)]
pub struct Cents<L: CashLedger> {
    below: L,
    rests: Rows<Rest>,
}

// Pays whole cents, unless there are none.
fn pay_cents<L: CashLedger>(ledger: &mut L, account: u32, cents: i64) -> Result<(), Fault>
    requires { unsigned_abs cents ≤ 40000000000000001 }
    ensures { PaysCents (meaning L.BalanceReader.balances L.CashLedger.terms ledger.old) account cents result (meaning L.BalanceReader.balances L.CashLedger.terms ledger.new) }
{
    if cents == 0 {
        return Ok(());
    }
    ledger.pay(account, cents * CENT)
}

// The balance of an account with a rest, if the layer knows the account then.
fn balance_over<L: CashLedger>(below: &L, account: u32, rest: Rest) -> Option<i64>
    ensures { result ≡ over (meaning L.BalanceReader.balances L.CashLedger.terms below.now) account rest }
{
    if below.lowest_balance() + CENT > HIGHEST_BALANCE {
        return None;
    }
    let balance = below.balance(account)? + i64::from(rest.value);
    (balance <= HIGHEST_BALANCE).then_some(balance)
}

impl<L: CashLedger> Cents<L> {
    // A layer over the accounts of a list, with rests of 0. A refused list makes a layer that knows none.
    pub fn new(below: L, list: &[u32]) -> Cents<L>
        ensures kept { result.below ≡ below }
        ensures layer { NewLayer (meaning L.BalanceReader.balances L.CashLedger.terms below) list.now (layer (meaning L.BalanceReader.balances L.CashLedger.terms result.below) result.rests.rows.items) }
    {
        Cents {
            below,
            rests: Rows::new(list, Rest { value: 0 }),
        }
    }

    // The ledger below.
    pub fn below(&self) -> &L
        ensures { result.now ≡ self.now.below }
    {
        &self.below
    }
}

impl<L: CashLedger> BalanceReader for Cents<L> {
    ghost balances = { λ s. layer_balances (meaning L.BalanceReader.balances L.CashLedger.terms s.below) s.rests.rows.items };

    ghost sound = { layer_sound (λ s. meaning L.BalanceReader.balances L.CashLedger.terms s.below) (λ s. s.rests.rows.items) };

    fn balance(&self, account: u32) -> Option<i64> {
        let rest = self.rests.find(account)?;
        balance_over(&self.below, account, *rest)
    }
}

impl<L: CashLedger> CashLedger for Cents<L> {
    ghost terms = { λ s. layer_terms (L.CashLedger.terms s.below) };

    ghost bounded = { layer_bounded L.CashLedger.terms (λ s. s.below) L.CashLedger.bounded };

    fn terms(&self) -> Terms {
        let below = self.below.terms();
        Terms {
            lowest: (below.lowest + CENT).min(HIGHEST_BALANCE),
            ..below
        }
    }

    // The amount and the old rest together are split: the whole cents go below, and the rest stays here.
    fn pay(&mut self, account: u32, amount: i64) -> Result<(), Fault>
        ensures pays { Pays (layer (meaning L.BalanceReader.balances L.CashLedger.terms self.old.below) self.old.rests.rows.items) account amount result (layer (meaning L.BalanceReader.balances L.CashLedger.terms self.new.below) self.new.rests.rows.items) }
        ensures sends { Sends (meaning L.BalanceReader.balances L.CashLedger.terms self.old.below) self.old.rests.rows.items account amount result (meaning L.BalanceReader.balances L.CashLedger.terms self.new.below) self.new.rests.rows.items }
    {
        let terms = self.terms();
        let unknown = Refusal::UnknownAccount.at(account);
        let rest = self.rests.find_mut(account).ok_or(unknown)?;
        let balance = balance_over(&self.below, account, *rest).ok_or(unknown)?;
        terms.check(account, balance, amount)?;
        let (cents, left) = split(amount + i64::from(rest.value));
        pay_cents(&mut self.below, account, cents)?;
        rest.value = left;
        Ok(())
    }
}
