// The fault of a refused call, with the call's name.
use crate::calls::CallName;
use faults::Fault;

#[derive(Clone, Copy, PartialEq, Eq, Debug)]
pub struct ContractFault {
    pub call: CallName,
    pub fault: Fault,
}
