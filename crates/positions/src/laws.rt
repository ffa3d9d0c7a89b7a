// What trades and busts keep.
ghost use Rattle.positions.specs.Laws.{PositionsBalance};

// A bust gives back what its trade took, and no trade or bust changes what all accounts come to.
#[tactic(auto, using(crate::proofs::Balance::positions_balance))]
pub fn positions_balance()
    ensures { PositionsBalance }
{}
