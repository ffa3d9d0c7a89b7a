// A call's own figures, checked whatever the phase: a checked call holds none past its limits.
ghost use Rattle.std.specs.Prelude.{◌≡◌, Some, None, Ok, Err};
ghost use Rattle.faults.specs.Checks.{first_fault};
ghost use Rattle.faults.specs.Refusals.{plain as plain_fault};
ghost use Rattle.contract.specs.Inputs.{Checks};
ghost use Rattle.contract.specs.Step.{value_checks};

use crate::calls::Call;
use crate::quotes::Quotes;
use faults::{Fault, Refusal, require};
use quantities::{
    AccountNumber, DiscountFactor, ExpectedValues, IndexValue, Rate, Strike, Tick, Vega,
};

// The same calls with their figures in their types; `in_numbers` ties them to those that a caller makes.
#[derive(Clone, Copy, PartialEq, Eq, Debug)]
pub(crate) enum Checked {
    List {
        expected: ExpectedValues,
        strike: Strike,
    },
    Open {
        discount: DiscountFactor,
    },
    Trade {
        buyer: AccountNumber,
        seller: AccountNumber,
        vega: Vega,
        tick: Tick,
    },
    Bust {
        ticket: u32,
    },
    Close {
        value: Option<IndexValue>,
        quotes: Quotes,
    },
    Accrue {
        rate: Rate,
    },
    Settle {
        value: IndexValue,
    },
}

impl Call {
    // The call with its figures in their types, or the first limit that they break.
    pub(crate) fn check(self) -> Result<Checked, Fault>
        ensures { Checks self result }
    {
        Ok(match self {
            Call::List { expected, strike } => Checked::List {
                expected: ExpectedValues::of(expected)?,
                strike: Strike::of(strike)?,
            },
            Call::Open { discount } => Checked::Open {
                discount: DiscountFactor::of(discount)?,
            },
            Call::Trade {
                buyer,
                seller,
                vega,
                tick,
            } => check_trade(buyer, seller, vega, tick)?,
            Call::Bust { ticket } => Checked::Bust { ticket },
            Call::Close { value, bid, offer } => check_close(value, bid, offer)?,
            Call::Accrue { rate } => Checked::Accrue {
                rate: Rate::of(rate)?,
            },
            Call::Settle { value } => check_settle(value)?,
        })
    }
}

fn check_trade(buyer: u32, seller: u32, vega: u32, tick: u32) -> Result<Checked, Fault>
    ensures { Checks (Call.Trade buyer seller vega tick) result }
{
    let buyer = AccountNumber::of(buyer)?;
    let seller = AccountNumber::of(seller)?;
    require(buyer != seller, Refusal::SameAccount)?;
    Ok(Checked::Trade {
        buyer,
        seller,
        vega: Vega::of(vega)?,
        tick: Tick::of(tick)?,
    })
}

fn check_close(value: Option<u32>, bid: u32, offer: u32) -> Result<Checked, Fault>
    ensures { Checks (Call.Close value bid offer) result }
{
    let bid = Tick::of(bid)?;
    let offer = Tick::of(offer)?;
    require(bid <= offer, Refusal::BidAboveOffer)?;
    Ok(Checked::Close {
        value: check_value(value)?,
        quotes: Quotes { bid, offer },
    })
}

fn check_settle(value: Option<u32>) -> Result<Checked, Fault>
    ensures { Checks (Call.Settle value) result }
{
    let value = check_value(value)?.ok_or(Refusal::DisruptedSettlement)?;
    Ok(Checked::Settle { value })
}

// A disrupted day has no value to check.
fn check_value(value: Option<u32>) -> Result<Option<IndexValue>, Refusal>
    ensures { elim result [ Ok x ↦ (first_fault (value_checks value) ≡ None) × elim x [ Some v ↦ value ≡ Some v.value | None ↦ value ≡ None ] | Err refusal ↦ first_fault (value_checks value) ≡ Some (plain_fault refusal) ] }
{
    value.map(IndexValue::of).transpose()
}
