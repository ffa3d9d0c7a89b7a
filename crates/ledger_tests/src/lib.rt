// Tests of the cash ledgers, and a ledger of another kind.
#![tactic(auto)]

pub mod purse;
#[cfg(test)]
mod tests;
