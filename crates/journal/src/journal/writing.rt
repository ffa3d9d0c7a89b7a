// Writing payments, a line after another.
ghost use Rattle.std.specs.Prelude.{◌≡◌, ◌+◌, ◌/◌, ◌<◌, length};
ghost use Rattle.ledger.specs.Payments.{Pays};
ghost use Rattle.ledger.specs.Sound.{widest_bounded};
ghost use Rattle.journal.specs.Lines.{parts};
ghost use Rattle.journal.specs.Meaning.{Appended, Notes, capacity_of, journal, noted, terms_of};

use super::Journal;
use crate::line::{LINE, words_of};
use faults::{Fault, Refusal};
use ledger::payment::Payment;
use ledger::terms::Terms;
use ledger::traits::{BalanceReader, CashLedger};

impl<'a> Journal<'a> {
    // Writes a line after the others.
    fn append(&mut self, payment: Payment)
        requires account { payment.account < parts }
        requires room { self.old.lines < length self.old.words.now / 4 }
        ensures { Appended self.old payment self.new }
    {
        let start = LINE * self.lines;
        self.words[start..start + LINE].copy_from_slice(&words_of(payment));
        self.lines += 1;
    }
}

impl<'a> CashLedger for Journal<'a> {
    ghost terms = { terms_of };

    ghost bounded = { widest_bounded capacity_of };

    fn terms(&self) -> Terms {
        Terms::widest((self.words.len() / LINE - self.lines) as u64)
    }

    // A payment of zero writes nothing.
    fn pay(&mut self, account: u32, amount: i64) -> Result<(), Fault>
        ensures pays { Pays (journal self.old) account amount result (journal self.new) }
        ensures notes { Notes self.old (noted account amount result) self.new }
        ensures lent { self.new.words.ghost_name ≡ self.old.words.ghost_name }
    {
        let balance = self
            .balance(account)
            .ok_or(Refusal::UnknownAccount.at(account))?;
        self.terms().check(account, balance, amount)?;
        let payment = Payment { account, amount };
        if !payment.is_zero() {
            self.append(payment);
        }
        Ok(())
    }
}
