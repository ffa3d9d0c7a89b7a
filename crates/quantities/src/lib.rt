// The figures that come in: each a type of its own, which holds nothing past its limits.
#![tactic(auto)]

ghost use Rattle.faults.specs.declared.Refusal.{Refusal};
ghost use Rattle.faults.specs.declared.Refusal.TheVariants as or;
ghost use Rattle.std.specs.Prelude.{◌≡◌, ◌≤◌, true, false, Ok, Err};
ghost use Rattle.quantities.specs.Bounds.{BoundsAreLimits};
ghost use Rattle.quantities.specs.Limits.{between};

use faults::Refusal;

// The number of index values that a contract expects.
pub const LOWEST_EXPECTED_VALUES: u32 = 3;

pub const HIGHEST_EXPECTED_VALUES: u32 = 1_024;

// A variance, in ten-thousandths of a point.
pub const LOWEST_STRIKE: u32 = 1;

pub const HIGHEST_STRIKE: u32 = 250_000_000;

// Hundred-millionths.
pub const LOWEST_DISCOUNT_FACTOR: u32 = 1;

pub const HIGHEST_DISCOUNT_FACTOR: u32 = 100_000_000;

// Thousands of vega.
pub const LOWEST_VEGA: u32 = 1;

pub const HIGHEST_VEGA: u32 = 20_000;

// Steps of 0.05 volatility points.
pub const LOWEST_TICK: u32 = 1;

pub const HIGHEST_TICK: u32 = 4_000;

// Hundredths of an index point.
pub const LOWEST_INDEX_VALUE: u32 = 1;

pub const HIGHEST_INDEX_VALUE: u32 = 9_999_999;

// The numbers that accounts may have.
pub const LOWEST_ACCOUNT_NUMBER: u32 = 1;

pub const HIGHEST_ACCOUNT_NUMBER: u32 = 16_383;

// Hundredths of a percent.
pub const LOWEST_RATE: u32 = 0;

pub const HIGHEST_RATE: u32 = 2_000;

// A number from LOW to HIGH.
#[derive(Clone, Copy, PartialEq, Eq, PartialOrd, Ord, Debug)]
pub struct Within<const LOW: u32, const HIGH: u32> {
    pub value: u32,
    ghost ok: { (LOW ≤ value) × (value ≤ HIGH) },
}

pub type ExpectedValues = Within<LOWEST_EXPECTED_VALUES, HIGHEST_EXPECTED_VALUES>;

pub type Strike = Within<LOWEST_STRIKE, HIGHEST_STRIKE>;

pub type DiscountFactor = Within<LOWEST_DISCOUNT_FACTOR, HIGHEST_DISCOUNT_FACTOR>;

pub type Vega = Within<LOWEST_VEGA, HIGHEST_VEGA>;

pub type Tick = Within<LOWEST_TICK, HIGHEST_TICK>;

pub type IndexValue = Within<LOWEST_INDEX_VALUE, HIGHEST_INDEX_VALUE>;

pub type AccountNumber = Within<LOWEST_ACCOUNT_NUMBER, HIGHEST_ACCOUNT_NUMBER>;

pub type Rate = Within<LOWEST_RATE, HIGHEST_RATE>;

// What refuses a figure that is past its limits.
pub trait Limited {
    const REFUSAL: Refusal;

    ghost REFUSAL: { Refusal };
}

impl<const LOW: u32, const HIGH: u32> Within<LOW, HIGH> {
    // Whether a number is within the limits.
    pub fn holds(value: u32) -> bool
        ensures { result ≡ between LOW HIGH value }
    {
        (LOW..=HIGH).contains(&value)
    }

    // The number, or the refusal where it is past the limits.
    pub fn of(value: u32) -> Result<Self, Refusal>
    where
        Self: Limited,
        ensures { elim result [ Ok x ↦ (between LOW HIGH value ≡ true) × (x.value ≡ value) | Err e ↦ (between LOW HIGH value ≡ false) × (e ≡ ⟦<Within<LOW, HIGH> as Limited>⟧.REFUSAL) ] }
    {
        if Self::holds(value) {
            Ok(Within { value })
        } else {
            Err(Self::REFUSAL)
        }
    }
}

impl Limited for ExpectedValues {
    const REFUSAL: Refusal = Refusal::ExpectedValues;

    ghost REFUSAL = { or.ExpectedValues };
}

impl Limited for Strike {
    const REFUSAL: Refusal = Refusal::Strike;

    ghost REFUSAL = { or.Strike };
}

impl Limited for DiscountFactor {
    const REFUSAL: Refusal = Refusal::DiscountFactor;

    ghost REFUSAL = { or.DiscountFactor };
}

impl Limited for Vega {
    const REFUSAL: Refusal = Refusal::Vega;

    ghost REFUSAL = { or.Vega };
}

impl Limited for Tick {
    const REFUSAL: Refusal = Refusal::Tick;

    ghost REFUSAL = { or.Tick };
}

impl Limited for IndexValue {
    const REFUSAL: Refusal = Refusal::IndexValue;

    ghost REFUSAL = { or.IndexValue };
}

impl Limited for AccountNumber {
    const REFUSAL: Refusal = Refusal::AccountNumber;

    ghost REFUSAL = { or.AccountNumber };
}

impl Limited for Rate {
    const REFUSAL: Refusal = Refusal::Rate;

    ghost REFUSAL = { or.Rate };
}

// The bounds above are the limits of the figures.
pub fn bounds_are_limits()
    ensures { BoundsAreLimits }
{}
