// What the table's promises are enough for: callers that see its contracts and none of its code, and its tests.
#![tactic(auto)]

ghost use Rattle.std.specs.Prelude.{◌≡◌, min, [], ◌∷◌, is_ok, if◌then◌else◌};
ghost use Rattle.table.specs.Records.{each_value, put_in};
ghost use Rattle.table.specs.View.{SamePlaces, laid, memory, records, room};
ghost use Rattle.table_tests.specs.Entering.{accounts_answer, enter_answer};
ghost use Rattle.table_tests.specs.Costs.{costing};

use faults::{Fault, Refusal, require};
use positions::{Account, Trade};
use table::{Full, Keyed, Stored, Table};

// Whether the buyer and then the seller have places, of those that are free; else the first that has none.
fn check_accounts(
    accounts: &Table<'_, Account>,
    limit: usize,
    buyer: Keyed<Account>,
    seller: Keyed<Account>,
) -> Result<(), Fault>
    ensures { result ≡ accounts_answer (min (room accounts.now) limit) buyer seller (records accounts.now) }
{
    let free = accounts
        .capacity()
        .min(limit)
        .saturating_sub(accounts.count());
    let buyer_new = accounts.find(buyer.key).is_none();
    let seller_new = accounts.find(seller.key).is_none() & (buyer.key != seller.key);
    require(
        !buyer_new | (free > 0),
        Refusal::NoAccountPlace.at(buyer.key),
    )?;
    require(
        !seller_new | (free > usize::from(buyer_new)),
        Refusal::NoAccountPlace.at(seller.key),
    )
}

// Keeps the two accounts of a trade and the trade, at most `limit` places of each table being used.
// Where one has no place, both tables and their memory stay as they were.
pub fn enter(
    accounts: &mut Table<'_, Account>,
    trades: &mut Table<'_, Trade>,
    limit: usize,
    buyer: Keyed<Account>,
    seller: Keyed<Account>,
    trade: Keyed<Trade>,
) -> Result<(), Fault>
    ensures answer { result ≡ enter_answer (min (room accounts.old) limit) (min (room trades.old) limit) buyer seller trade (records accounts.old) (records trades.old) }
    ensures accounts { records accounts.new ≡ (if is_ok result then put_in seller (put_in buyer (records accounts.old)) else records accounts.old) }
    ensures trades { records trades.new ≡ (if is_ok result then put_in trade (records trades.old) else records trades.old) }
    ensures memories { (memory accounts.new ≡ (if is_ok result then laid (records accounts.new) (memory accounts.old) else memory accounts.old)) × (memory trades.new ≡ (if is_ok result then laid (records trades.new) (memory trades.old) else memory trades.old)) }
    ensures places { SamePlaces accounts.old accounts.new × SamePlaces trades.old trades.new }
{
    check_accounts(accounts, limit, buyer, seller)?;
    require(trades.has_place(trade.key, limit), Refusal::NoTradePlace)?;
    let _ = accounts.put(buyer);
    let _ = accounts.put(seller);
    let _ = trades.put(trade);
    Ok(())
}

// The account at another cost.
fn at_cost(account: Account, cost: i64) -> Account
    ensures { result ≡ costing cost account }
{
    Account { cost, ..account }
}

// Sets the cost of every account, by a closure that captures it.
pub fn set_costs(accounts: &mut Table<'_, Account>, cost: i64)
    ensures records { records accounts.new ≡ each_value (costing cost) (records accounts.old) }
    ensures places { SamePlaces accounts.old accounts.new }
{
    accounts.map_values(|account| at_cost(account, cost));
}

// What the lender holds once the table is gone: the record in the first place, if there is one, and the rest as it was.
pub fn write_first(places: &mut [Keyed<Account>], incoming: Keyed<Account>) -> Result<Stored, Full>
    ensures { places.new ≡ (if is_ok result then laid (incoming ∷ []) places.old else places.old) }
{
    let mut table = Table::new(places);
    table.put(incoming)
}

#[cfg(test)]
mod tests;
