// A day file: 32-bit big-endian words that say calls, the run over a whole file, and the sheet that it prints.
#![tactic(auto)]

mod accounts;
pub mod file_fault;
mod kind;
pub mod limits;
pub mod lines;
pub mod reader;
mod runs;
mod sheets;
mod texts;
mod words;

pub use balances::accounts::Accounts;
pub use file_fault::{Cause, FileFault};
pub use lines::Line;
pub use reader::{Item, Placed, Reader};
pub use runs::{Day, run};
pub use texts::{Accumulated, Decimal, Money};
