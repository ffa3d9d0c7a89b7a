// What is proved of the payments as a whole.
ghost use Rattle.settlement.specs.Cancelling.{PaymentsCancel};

#[tactic(auto, using(crate::proofs::Cancelling::payments_cancel))]
pub fn payments_cancel()
    ensures { PaymentsCancel }
{}
