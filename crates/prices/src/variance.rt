// The returns of a contract so far, the variances that they make, and the units of a trade.
ghost use Rattle.std.specs.Prelude.{◌≡◌, ◌+◌, ◌-◌, ◌*◌, ◌<◌, ◌≤◌, Some, None};
ghost use Rattle.prices.specs.Variance.{volatility as volatility_of, variance_at, realised as realised_of, units as units_of};

use crate::rounding::{nearest, up};
use quantities::{ExpectedValues, Tick, Vega};

// Trading days in a year, over which daily squares are a yearly variance.
const TRADING_DAYS: u64 = 252;

// Units of U in a ten-thousandth of a variance point.
const SQUARES: u64 = 10_000;

// Volatility, in hundredths of a point, in a tick.
const TICK_SIZE: u64 = 5;

// Vega in thousands over twice a volatility in hundredths: 1,000 × 100 / 2.
const HALF_VEGA: u64 = 50_000;

// A variance, in ten-thousandths of a point. It has no type in common with Price: the head of the crate says why.
#[derive(Clone, Copy, PartialEq, Eq)]
pub struct Variance {
    pub value: u64,
    ghost ok: { value ≤ 2100000000 },
}

// The number of returns so far, n, and the sum of their squares, S, of a contract that expects Ne values.
#[derive(Clone, Copy)]
pub struct Returns {
    pub expected: ExpectedValues,
    pub count: u64,
    pub sum: u64,
    ghost room: { count < expected.value },
    ghost small: { sum ≤ 83000000000 * count },
}

impl Returns {
    // k, the variance at a tick: its volatility for the returns to come, and the squares of those made.
    pub fn variance_at(self, tick: Tick) -> Variance
        ensures { result.value ≡ variance_at self.expected.value self.count self.sum tick.value }
    {
        let squares = self.to_come_squares(tick) * SQUARES + TRADING_DAYS * self.sum;
        Variance {
            value: nearest(squares, SQUARES * self.expected_returns()),
        }
    }

    // V, the realised variance.
    pub fn realised(self) -> Variance
        ensures { result.value ≡ realised_of self.expected.value self.sum }
    {
        Variance {
            value: nearest(TRADING_DAYS * self.sum, SQUARES * self.expected_returns()),
        }
    }

    // The units of a trade, or none where no return is to come.
    pub fn units(self, vega: Vega, tick: Tick) -> Option<u64>
        ensures { elim result [ None ↦ self.count + 1 ≡ self.expected.value | Some x ↦ (self.count + 1 < self.expected.value) × (x ≡ units_of self.expected.value self.count vega.value tick.value) ] }
    {
        let to_come = self.to_come();
        if to_come == 0 {
            return None;
        }
        let vega = u64::from(vega.value) * HALF_VEGA * self.expected_returns();
        Some(up(vega, volatility(tick) * to_come))
    }

    // v squared for each return to come.
    fn to_come_squares(self, tick: Tick) -> u64
        ensures value { result ≡ volatility_of tick.value * volatility_of tick.value * (self.expected.value - 1 - self.count) }
        ensures bound { result ≤ 400000000 * (self.expected.value - 1 - self.count) }
    {
        let v = volatility(tick);
        v * v * self.to_come()
    }

    // The returns to come, Ne - 1 - n.
    fn to_come(self) -> u64
        ensures { result ≡ self.expected.value - 1 - self.count }
    {
        self.expected_returns() - self.count
    }

    // Ne - 1.
    fn expected_returns(self) -> u64
        ensures { result ≡ self.expected.value - 1 }
    {
        u64::from(self.expected.value) - 1
    }
}

// v, in hundredths of a volatility point.
fn volatility(tick: Tick) -> u64
    ensures value { result ≡ volatility_of tick.value }
    ensures bound { (1 ≤ result) × (result ≤ 20000) }
{
    TICK_SIZE * u64::from(tick.value)
}
