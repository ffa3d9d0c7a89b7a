// The accounts that a day file names for the balance table.
ghost use Rattle.std.specs.Prelude.{◌≡◌, is_ok, if◌then◌else◌};
ghost use Rattle.faults.specs.Checks.{first_fault, verdict};
ghost use Rattle.balances.specs.Accounts.{listed};
ghost use Rattle.balances.specs.Lists.{add_new};
ghost use Rattle.dayfile.specs.Accounts.{account_checks};

use balances::accounts::Accounts;
use contract::Phase;
use faults::{Fault, Refusal, require};
use quantities::AccountNumber;

// Notes an account that is named before the listing; a repeated one counts once.
pub(crate) fn admit(accounts: &mut Accounts, phase: Phase, account: u32) -> Result<(), Fault>
    ensures answer { result ≡ verdict tt (first_fault (account_checks phase (listed accounts.old) account)) }
    ensures numbers { listed accounts.new ≡ (if is_ok result then add_new (listed accounts.old) account else listed accounts.old) }
{
    AccountNumber::of(account)?;
    require(phase == Phase::Unlisted, Refusal::Phase)?;
    accounts.add(account)
}
