// An ordered table of records with key numbers, over memory that the caller lends.
#![tactic(auto)]

mod keyed;
mod ordered;

pub use keyed::Keyed;
pub use ordered::{Full, Stored, Table};
