// The cents layer: a ledger that passes whole cents on to the ledger below it and keeps the rests.
#![tactic(auto)]

pub mod layer;
pub mod rest;
