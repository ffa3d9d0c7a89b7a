// What each call does to a contract, in place.
ghost use Rattle.std.specs.Prelude.{◌≡◌};
ghost use Rattle.contract.specs.declared.figures.Phase.TheVariants.{Ready, Trading, Closed};
ghost use Rattle.contract.specs.declared.inputs.Checked.TheVariants as checked;
ghost use Rattle.faults.specs.Checks.{first_fault};
ghost use Rattle.contract.specs.Inputs.{in_numbers};
ghost use Rattle.contract.specs.Step.{unlisted, listed as listed_at, accrued, checks, Ends, Serves, Step as StepOf};

use crate::call_fault::ContractFault;
use crate::calls::{Answer, Call};
use crate::contract::Contract;
use crate::figures::{Figures, IndexRecord, Phase};
use crate::inputs::Checked;
use crate::quotes::Quotes;
use crate::settlement::settlement_price;
use faults::{Fault, Refusal, require};
use prices::price::{AccumulatedReturn, BASE_PRICE, Price};
use quantities::{DiscountFactor, ExpectedValues, IndexValue, Rate, Strike};

const NO_VALUES: IndexRecord = IndexRecord {
    last: None,
    returns: 0,
    sum_of_squares: 0,
};

const UNLISTED: Figures = Figures {
    phase: Phase::Unlisted,
    expected: 0,
    strike: 0,
    discount: 0,
    closes: 0,
    index: NO_VALUES,
    price: BASE_PRICE,
    accumulated: 0,
};

impl Contract {
    // A contract before its listing.
    pub fn new() -> Contract
        ensures { result.figures ≡ unlisted }
    {
        Contract { figures: UNLISTED }
    }

    fn list(&mut self, expected: ExpectedValues, strike: Strike)
        ensures { self.new.figures ≡ listed_at expected.value strike.value }
    {
        self.figures = Figures {
            phase: Phase::Ready,
            expected: expected.value,
            strike: strike.value,
            ..UNLISTED
        };
    }

    // Ready to Trading, while a close is still to come.
    fn open(&mut self, discount: DiscountFactor) -> Result<Answer, Fault>
        requires { self.old.figures.phase ≡ Ready }
        ensures { Serves self.old.figures (Call.Open discount.value) result self.new.figures }
    {
        require(
            self.figures.closes + 1 < self.figures.expected,
            Refusal::ClosesDone,
        )?;
        self.figures = Figures {
            phase: Phase::Trading,
            discount: discount.value,
            ..self.figures
        };
        Ok(Answer::Done)
    }

    // Trading to Closed: the day's value is kept, unless the day is disrupted, and the mark makes the settlement price.
    fn close(&mut self, value: Option<IndexValue>, quotes: Quotes) -> Result<Answer, Fault>
        requires { self.old.figures.phase ≡ Trading }
        ensures { Serves self.old.figures (in_numbers (checked.Close value quotes)) result self.new.figures }
    {
        let index = self.figures.index.keep(value)?;
        let price = settlement_price(self.figures, index, quotes);
        self.figures = Figures {
            phase: Phase::Closed,
            closes: self.figures.closes + 1,
            index,
            price: price.value,
            ..self.figures
        };
        Ok(Answer::Done)
    }

    // Closed to Ready: a day's interest on what the settlement price and the accumulated return have come to.
    #[tactic(auto, unfolding(crate::specs::Formulas::growth))]
    fn accrue(&mut self, rate: Rate)
        requires { self.old.figures.phase ≡ Closed }
        ensures { self.new.figures ≡ accrued rate.value self.old.figures }
    {
        let price = Price {
            value: self.figures.price,
        };
        let before = AccumulatedReturn {
            value: self.figures.accumulated,
        };
        let accumulated = self.figures.accumulated + price.accrual(before, rate);
        self.figures = Figures {
            phase: Phase::Ready,
            accumulated,
            ..self.figures
        };
    }

    // The phase and the call together tell what is done; every other pair is refused.
    fn serve(&mut self, call: Checked) -> Result<Answer, Fault>
        ensures { Serves self.old.figures (in_numbers call) result self.new.figures }
    {
        match (self.figures.phase, call) {
            (Phase::Unlisted, Checked::List { expected, strike }) => {
                self.list(expected, strike);
                Ok(Answer::Done)
            }
            (Phase::Ready, Checked::Open { discount }) => self.open(discount),
            (Phase::Trading, Checked::Close { value, quotes }) => self.close(value, quotes),
            (Phase::Closed, Checked::Accrue { rate }) => {
                self.accrue(rate);
                Ok(Answer::Done)
            }
            _ => Err(Refusal::Phase.into()),
        }
    }

    // The call's own figures are checked before anything else.
    fn apply(&mut self, call: Call) -> Result<Answer, Fault>
        ensures { Ends (first_fault (checks self.old.figures call)) self.old.figures call result self.new.figures }
    {
        let checked = call.check()?;
        self.serve(checked)
    }

    // One call, in place: what it answers, or the call's name and why it is refused.
    pub fn step(&mut self, call: Call) -> Result<Answer, ContractFault>
        ensures { StepOf self.old.figures call result self.new.figures }
    {
        self.apply(call).map_err(|fault| ContractFault {
            call: call.name(),
            fault,
        })
    }
}
