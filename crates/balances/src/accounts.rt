ghost use Rattle.std.specs.Prelude.{◌≤◌};
ghost use Rattle.balances.specs.Places.{places};

use crate::place::PLACES;

pub mod listing;

// Different accounts in the order in which they came: the first `count` of the numbers. A list of accounts can be copied, which an `ArrayVec`
// of them could not.
#[derive(Clone, Copy)]
pub struct Accounts {
    numbers: [u32; PLACES],
    count: usize,
    ghost fits: { count ≤ places },
}
