// Entering and busting trades: everything is checked before the first table changes.
ghost use Rattle.std.specs.Prelude.{◌≡◌, neg_ℤ};
ghost use Rattle.faults.specs.Checks.{first_fault, verdict};
ghost use Rattle.table.specs.Records.{find_in};
ghost use Rattle.table.specs.View.{SamePlaces, records, room};
ghost use Rattle.positions.specs.Changes.{Allowed, BothAllowed};
ghost use Rattle.positions.specs.Laws.{SameTotals};
ghost use Rattle.positions.specs.Positions.{changed};
ghost use Rattle.positions.specs.Trading.{Busts, Enters, bust_checks, bust_checks_of, entry_checks};

use crate::change::Change;
use crate::limits::{ACCOUNT_PLACES, LAST_TICKET, TRADE_PLACES};
use crate::places::seller_has_place;
use crate::records::{Account, Trade};
use crate::side::Side;
use faults::{Fault, Refusal, require};
use table::{Keyed, Table};

// What speaks against a trade, in rising number: the first of it.
#[tactic(auto, unfolding(crate::specs::Trading::has_account_place, crate::specs::Trading::has_trade_place))]
fn check_entry(
    accounts: &Table<'_, Account>,
    trades: &Table<'_, Trade>,
    ticket: u32,
    trade: Trade,
) -> Result<(), Fault>
    ensures { result ≡ verdict tt (first_fault (entry_checks (room accounts.now) (room trades.now) (records accounts.now) (records trades.now) ticket trade)) }
{
    let change = Change::bought(trade);
    let buyer = Side::of(accounts, trade.buyer, change);
    let seller = Side::of_seller(accounts, trade, change);
    require(buyer.units_hold(), Refusal::AccountUnits.at(trade.buyer))?;
    require(seller.units_hold(), Refusal::AccountUnits.at(trade.seller))?;
    require(
        accounts.has_place(trade.buyer, ACCOUNT_PLACES),
        Refusal::NoAccountPlace.at(trade.buyer),
    )?;
    require(
        seller_has_place(accounts, trade),
        Refusal::NoAccountPlace.at(trade.seller),
    )?;
    require(
        trades.has_place(ticket, TRADE_PLACES),
        Refusal::NoTradePlace,
    )?;
    require(ticket <= LAST_TICKET, Refusal::TradesUsedUp)?;
    require(buyer.cost_holds(), Refusal::OutOfRange.at(trade.buyer))?;
    require(seller.cost_holds(), Refusal::OutOfRange.at(trade.seller))
}

// What speaks against a bust. The units of an account that is not in the table are not asked for.
fn check_bust(accounts: &Table<'_, Account>, trade: Trade) -> Result<(), Fault>
    ensures { result ≡ verdict tt (first_fault (bust_checks_of trade (records accounts.now))) }
{
    let change = Change::bought(trade).opposite();
    let buyer = Side::of(accounts, trade.buyer, change);
    let seller = Side::of_seller(accounts, trade, change);
    let buyer_there = accounts.find(trade.buyer).is_some();
    let seller_there = accounts.find(trade.seller).is_some();
    require(
        !buyer_there | buyer.units_hold(),
        Refusal::AccountUnits.at(trade.buyer),
    )?;
    require(
        !seller_there | seller.units_hold(),
        Refusal::AccountUnits.at(trade.seller),
    )?;
    require(buyer_there & seller_there, Refusal::NoSuchTrade)?;
    require(buyer.cost_holds(), Refusal::OutOfRange.at(trade.buyer))?;
    require(seller.cost_holds(), Refusal::OutOfRange.at(trade.seller))
}

// Makes a change to one account.
fn make_change(accounts: &mut Table<'_, Account>, number: u32, change: Change)
    requires { Allowed (room accounts.old) number change.units change.cost (records accounts.old) }
    ensures records { records accounts.new ≡ changed number change.units change.cost (records accounts.old) }
    ensures places { SamePlaces accounts.old accounts.new }
{
    let side = Side::of(accounts, number, change);
    let _ = accounts.put(Keyed {
        key: number,
        value: side.after(),
    });
}

// Makes a change to the buyer, then its opposite to the seller.
fn make_changes(accounts: &mut Table<'_, Account>, trade: Trade, change: Change)
    requires { BothAllowed (room accounts.old) trade.buyer trade.seller change.units change.cost (records accounts.old) }
    ensures records { records accounts.new ≡ changed trade.seller (neg_ℤ change.units) (neg_ℤ change.cost) (changed trade.buyer change.units change.cost (records accounts.old)) }
    ensures totals { SameTotals (records accounts.old) (records accounts.new) }
    ensures places { SamePlaces accounts.old accounts.new }
{
    make_change(accounts, trade.buyer, change);
    make_change(accounts, trade.seller, change.opposite());
}

// Enters a trade under its ticket. A refused trade changes neither table.
// Two tables and no struct of them, in a public signature: they are lent side by side, with a contract and a ledger, and none keeps another.
#[tactic(auto, using(crate::proofs::Passed::entry_place))]
pub fn enter(
    accounts: &mut Table<'_, Account>,
    trades: &mut Table<'_, Trade>,
    ticket: u32,
    trade: Trade,
) -> Result<(), Fault>
    ensures outcome { Enters (first_fault (entry_checks (room accounts.old) (room trades.old) (records accounts.old) (records trades.old) ticket trade)) ticket trade result (records accounts.old) (records accounts.new) (records trades.old) (records trades.new) }
    ensures totals { SameTotals (records accounts.old) (records accounts.new) }
    ensures accounts_places { SamePlaces accounts.old accounts.new }
    ensures trades_places { SamePlaces trades.old trades.new }
{
    check_entry(accounts, trades, ticket, trade)?;
    make_changes(accounts, trade, Change::bought(trade));
    let _ = trades.put(Keyed {
        key: ticket,
        value: trade,
    });
    Ok(())
}

// Busts the trade of a ticket: takes its units and costs back, and gives its place back. A refused bust changes neither table.
pub fn bust(
    accounts: &mut Table<'_, Account>,
    trades: &mut Table<'_, Trade>,
    ticket: u32,
) -> Result<(), Fault>
    ensures outcome { Busts (first_fault (bust_checks (find_in ticket (records trades.old)) (records accounts.old))) ticket result (records accounts.old) (records accounts.new) (records trades.old) (records trades.new) }
    ensures totals { SameTotals (records accounts.old) (records accounts.new) }
    ensures accounts_places { SamePlaces accounts.old accounts.new }
    ensures trades_places { SamePlaces trades.old trades.new }
{
    let trade = trades.find(ticket).ok_or(Refusal::NoSuchTrade)?.value;
    check_bust(accounts, trade)?;
    make_changes(accounts, trade, Change::bought(trade).opposite());
    let _ = trades.take(ticket);
    Ok(())
}
