// Making a journal, and the calls that only read it.
ghost use Rattle.std.specs.Prelude.{◌≡◌, ℕ, ◌/◌, cond, [], length, pos, Some, None};
ghost use Rattle.std.specs.List.{slice_get};
ghost use Rattle.std.specs.Simd.{first_chunks};
ghost use Rattle.ledger.specs.Payments.{due_of};
ghost use Rattle.ledger.specs.Totals.{if_within};
ghost use Rattle.journal.specs.Lines.{payment_in};
ghost use Rattle.journal.specs.Meaning.{capacity_of, from_to, lines_of, total_of};
ghost use Rattle.journal.specs.Sound.{journal_sound};

use super::Journal;
use crate::line::{LINE, payment_of};
use ledger::limits::{HIGHEST_BALANCE, LOWEST_BALANCE, is_admitted};
use ledger::payment::Payment;
use ledger::traits::BalanceReader;

// What a line pays an account.
fn pays(line: &[u32; LINE], account: u32) -> i64
    ensures { result ≡ due_of (payment_in line.now) account }
{
    let payment = payment_of(line);
    if payment.account == account {
        payment.amount
    } else {
        0
    }
}

// A total within the limits of balances.
fn balance_of_total(total: i128) -> Option<i64>
    ensures { result ≡ if_within total }
{
    let balance = i64::try_from(total).ok()?;
    (LOWEST_BALANCE..=HIGHEST_BALANCE)
        .contains(&balance)
        .then_some(balance)
}

impl<'a> Journal<'a> {
    // A journal with no line. It knows the accounts from first to last, but none if one of the two is no account number.
    #[tactic(auto, unfolding(ledger::specs::Totals::if_within))]
    pub fn new(words: &'a mut [u32], first: u32, last: u32) -> Journal<'a>
        ensures words { result.words.now ≡ words.old }
        ensures lines { lines_of result ≡ [] }
        ensures totals { (a : ℕ) → total_of result a ≡ cond (from_to first last a) (Some (pos 0)) None }
        ensures capacity { capacity_of result ≡ length words.old / 4 }
        ensures lent { result.words.ghost_name ≡ words.entry.ghost_name }
    {
        Journal {
            words,
            lines: 0,
            first,
            last,
        }
    }

    // The payment of a line, numbered from 0.
    pub fn line(&self, number: usize) -> Option<Payment>
        ensures { result ≡ slice_get (lines_of self.now) number }
    {
        self.lines().get(number).map(payment_of)
    }

    // The lines that are written.
    fn lines(&self) -> &[[u32; LINE]]
        ensures { result.now ≡ first_chunks 4 self.now.lines self.now.words.now }
    {
        &self.words.as_chunks().0[..self.lines]
    }

    // Whether an account lies from the first to the last.
    fn spans(&self, account: u32) -> bool
        ensures { result ≡ from_to self.now.first self.now.last account }
    {
        is_admitted(self.first)
            & is_admitted(self.last)
            & (self.first..=self.last).contains(&account)
    }
}

impl<'a> BalanceReader for Journal<'a> {
    ghost balances = { total_of };

    ghost sound = { journal_sound (λ s. s.words.now) (λ s. s.lines) (λ s. s.first) (λ s. s.last) };

    fn balance(&self, account: u32) -> Option<i64> {
        if !self.spans(account) {
            return None;
        }
        let mut total: i128 = 0;
        for line in self.lines() {
            total += i128::from(pays(line, account));
        }
        balance_of_total(total)
    }
}
