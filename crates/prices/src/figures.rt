// What is proved of the formulas themselves: the laws of their roundings, and figures that they must give.
ghost use Rattle.prices.specs.Figures.{CheckedFigures};
ghost use Rattle.prices.specs.Laws.{RoundingLaws};

#[tactic(auto, using(crate::proofs::Quotients::laws))]
pub fn rounding_laws()
    ensures { RoundingLaws }
{}

pub fn checked_figures()
    ensures { CheckedFigures }
{}
