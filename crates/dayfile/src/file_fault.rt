// Why a run over a day file ends early.
ghost use Rattle.std.specs.Prelude.{◌≡◌};
ghost use Rattle.dayfile.specs.declared.file_fault.Cause.TheVariants as cause;
ghost use Rattle.dayfile.specs.Faults.{fault_of};

use contract::ContractFault;
use faults::{Fault, Refusal};
use std::alloc::AllocFailed;

#[derive(Clone, Copy, PartialEq, Eq, Debug)]
pub enum Cause {
    // The file's length or a wrong word.
    File(Refusal),
    // An account of the balance table.
    Account(Fault),
    // A call of the contract.
    Call(ContractFault),
    // No memory was left for a line of the sheet.
    Memory,
}

// The place of the word, or of the call's first word, and what is wrong there.
#[derive(Clone, Copy, PartialEq, Eq, Debug)]
pub struct FileFault {
    pub place: usize,
    pub cause: Cause,
}

impl Cause {
    // The refusal and the account that it names; none for want of memory.
    pub fn fault(self) -> Option<Fault>
        ensures { result ≡ fault_of self }
    {
        match self {
            Cause::File(refusal) => Some(refusal.into()),
            Cause::Account(fault) => Some(fault),
            Cause::Call(refused) => Some(refused.fault),
            Cause::Memory => None,
        }
    }
}

impl From<Fault> for Cause {
    ghost from_gives = { λ fault made. made ≡ cause.Account fault };

    fn from(fault: Fault) -> Cause {
        Cause::Account(fault)
    }
}

impl From<ContractFault> for Cause {
    ghost from_gives = { λ fault made. made ≡ cause.Call fault };

    fn from(fault: ContractFault) -> Cause {
        Cause::Call(fault)
    }
}

impl<T: Drop> From<AllocFailed<T>> for Cause {
    ghost from_gives = { λ _ made. made ≡ cause.Memory };

    fn from(_line: AllocFailed<T>) -> Cause {
        Cause::Memory
    }
}
