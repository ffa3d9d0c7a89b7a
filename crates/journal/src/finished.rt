ghost use Rattle.std.specs.Prelude.{◌≡◌};
ghost use Rattle.journal.specs.Meaning.{total_of};
ghost use Rattle.journal.specs.Sound.{total_within};
ghost use Rattle.ledger.specs.Sound.{sound_totals};

use crate::journal::Journal;
use ledger::traits::BalanceReader;

// A journal that takes no more payments.
#[derive(Drop)]
pub struct FinishedJournal<'a> {
    journal: Journal<'a>,
}

impl<'a> FinishedJournal<'a> {
    pub fn new(journal: Journal<'a>) -> FinishedJournal<'a>
        ensures { result.journal ≡ journal.entry }
    {
        FinishedJournal { journal }
    }
}

impl<'a> BalanceReader for FinishedJournal<'a> {
    ghost balances = { λ s. total_of s.journal };

    ghost sound = { sound_totals (λ s. total_of s.journal) (λ s. total_within s.journal) };

    fn balance(&self, account: u32) -> Option<i64> {
        self.journal.balance(account)
    }
}
