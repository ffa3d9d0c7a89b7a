// The payment journal: a ledger over 32-bit words that the caller lends.
#![tactic(auto)]

pub mod finished;
pub mod journal;
mod line;
