// Whether the seller of a trade finds its place in the table of accounts.
ghost use Rattle.std.specs.Prelude.{◌≡◌, ℤ};
ghost use Rattle.table.specs.View.{records, room};
ghost use Rattle.positions.specs.Positions.{changed};
ghost use Rattle.positions.specs.Trading.{has_account_place};

use crate::limits::ACCOUNT_PLACES;
use crate::records::{Account, Trade};
use table::Table;

// Once the buyer has its place, which may have been the last.
#[tactic(auto, unfolding(crate::specs::Trading::has_account_place), using(crate::proofs::Placed::place_after))]
pub(crate) fn seller_has_place(accounts: &Table<'_, Account>, trade: Trade) -> bool
    ensures { (units cost : ℤ) → result ≡ has_account_place (room accounts.now) trade.seller (changed trade.buyer units cost (records accounts.now)) }
{
    let taken = usize::from(accounts.find(trade.buyer).is_none());
    let left = accounts
        .capacity()
        .min(ACCOUNT_PLACES)
        .saturating_sub(taken);
    (trade.buyer == trade.seller) | accounts.has_place(trade.seller, left)
}
