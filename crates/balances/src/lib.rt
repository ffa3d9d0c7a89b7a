// Lists of up to 64 accounts, a table with one row for each of them, and the ledger that keeps a balance in each row.
#![tactic(auto)]

pub mod accounts;
pub mod balance;
pub mod place;
pub mod rows;
pub mod table;
