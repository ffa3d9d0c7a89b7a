// The positions of accounts, and the trades of a day.
#![tactic(auto)]

mod change;
mod laws;
pub mod limits;
mod places;
pub mod records;
mod side;
mod trading;

pub use laws::positions_balance;
pub use records::{Account, Trade};
pub use trading::{bust, enter};
