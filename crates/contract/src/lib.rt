// A variance futures contract: its calls, the phase that admits each, and what each does in place.
#![tactic(auto)]

pub mod call_fault;
pub mod calls;
pub mod contract;
pub mod figures;
mod index;
mod inputs;
mod quotes;
mod settlement;
mod steps;

pub use call_fault::ContractFault;
pub use calls::{Answer, Call, CallName};
pub use contract::Contract;
pub use figures::{Figures, IndexRecord, Phase};
