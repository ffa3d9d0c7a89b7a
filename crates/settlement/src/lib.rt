// The payments of a close or of the settlement, to every account of a table, over any cash ledger.
#![tactic(auto)]

mod checking;
mod ending;
mod laws;
mod payment;
mod settling;

pub use ending::Ending;
pub use laws::payments_cancel;
pub use payment::Repricing;
pub use settling::settle_accounts;
