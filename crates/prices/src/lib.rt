// The arithmetic of returns, variances, units and prices.
#![tactic(auto)]

// Price, AccumulatedReturn, Variance and Return are four types and no generic one: they share that a number is bounded, and no
// function, so one type over the bounds would save nothing.

pub mod cents;
pub mod figures;
pub mod price;
pub mod returns;
mod rounding;
pub mod variance;
