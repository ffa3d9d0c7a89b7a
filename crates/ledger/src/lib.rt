// Cash ledgers: what one means, and payments of which all are checked before one is made.
#![tactic(auto)]

pub mod limits;
pub mod paying;
pub mod payment;
pub mod terms;
pub mod traits;
