// The limits of payments and balances, and which account numbers are admitted. Money is in ten-thousandths of a dollar.
ghost use Rattle.std.specs.Prelude.{◌≡◌};
ghost use Rattle.ledger.specs.Limits.{admitted as admitted_number};

use quantities::AccountNumber;

// A payment is at most so large, in either direction.
pub const LARGEST_PAYMENT: u64 = 4_000_000_000_000_000_000;

// No ledger's range of balances is wider than from here
pub const LOWEST_BALANCE: i64 = -9_000_000_000_000_000_000;

// to here.
pub const HIGHEST_BALANCE: i64 = 9_000_000_000_000_000_000;

pub fn is_admitted(account: u32) -> bool
    ensures { result ≡ admitted_number account }
{
    AccountNumber::holds(account)
}
