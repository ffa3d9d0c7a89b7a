// Prices, the mark of a close, and the accumulated return.
ghost use Rattle.std.specs.Prelude.{◌≡◌, ◌+◌, ◌*◌, ◌^◌, ◌<◌, ◌≤◌, pos, ◌+ℤ◌, ◌-ℤ◌, ◌*ℤ◌, unsigned_abs};
ghost use Rattle.prices.specs.Prices.{mark as mark_of, converted as converted_of, final as final_of, bearing as bearing_of, accrual as accrual_of, base_price};

use crate::rounding::nearest_signed;
use crate::variance::Variance;
use quantities::{DiscountFactor, Rate, Strike, Tick, Within};

// The price of a variance at the strike, before any return has accumulated: 1,000 points.
pub const BASE_PRICE: i64 = 10_000_000;

// Hundred-millionths, the unit of a discount factor, in one.
const WHOLE_FACTOR: u32 = 100_000_000;

// Hundred-millionths, the unit of A, in a ten-thousandth, the unit of prices.
const RETURN_UNITS: u32 = 10_000;

// One a year, as a rate in hundredths of a percent, over 360 days.
const RATE_YEAR: u32 = 3_600_000;

// A price, in ten-thousandths of a point. That it has no type in common with the other figures is told at the head of the crate.
#[derive(Clone, Copy, PartialEq, Eq)]
pub struct Price {
    pub value: i64,
    ghost ok: { unsigned_abs value ≤ 3400000000 },
}

// A, the return that variation margin has earned so far, in hundred-millionths of a point.
#[derive(Clone, Copy, PartialEq, Eq)]
pub struct AccumulatedReturn {
    pub value: i64,
    ghost ok: { unsigned_abs value ≤ 12000000000000 },
}

// The mark of a close: the middle of bid and offer, rounded up to a tick.
pub fn mark(bid: Tick, offer: Tick) -> Tick
    ensures { result.value ≡ mark_of bid.value offer.value }
{
    Within {
        value: (bid.value + offer.value).div_ceil(2),
    }
}

impl Price {
    // The price of a variance k on a day with a discount factor.
    #[tactic(auto, using(crate::proofs::Bearing::pricing))]
    pub fn converted(
        factor: DiscountFactor,
        variance: Variance,
        strike: Strike,
        accumulated: AccumulatedReturn,
    ) -> Price
        ensures value { result.value ≡ converted_of factor.value variance.value strike.value accumulated.value }
        ensures bearing { unsigned_abs (bearing_of result.value accumulated.value) ≤ 21000000005000 }
    {
        let gain = times(above(variance, strike), factor.value);
        let less = accumulated.value * i64::from(RETURN_UNITS);
        Price {
            value: nearest_signed(on_base(gain, less, WHOLE_FACTOR), WHOLE_FACTOR),
        }
    }

    // The final price, at the realised variance V.
    #[tactic(auto, using(crate::proofs::Bearing::pricing))]
    pub fn final_price(realised: Variance, strike: Strike, accumulated: AccumulatedReturn) -> Price
        ensures { result.value ≡ final_of realised.value strike.value accumulated.value }
    {
        let gain = above(realised, strike) * i64::from(RETURN_UNITS);
        Price {
            value: nearest_signed(on_base(gain, accumulated.value, RETURN_UNITS), RETURN_UNITS),
        }
    }

    // What an accrual at this settlement price adds to the accumulated return.
    pub fn accrual(self, accumulated: AccumulatedReturn, rate: Rate) -> i64
        ensures value { result ≡ accrual_of self.value accumulated.value rate.value }
        ensures bound { 1800 * unsigned_abs result ≤ unsigned_abs (bearing_of self.value accumulated.value) + 900 }
    {
        nearest_signed(times(self.bearing(accumulated), rate.value), RATE_YEAR)
    }

    // What bears interest at this settlement price, in hundred-millionths.
    fn bearing(self, accumulated: AccumulatedReturn) -> i64
        ensures value { result ≡ bearing_of self.value accumulated.value }
        ensures bound { unsigned_abs result ≤ 46100000000000 }
    {
        (self.value - BASE_PRICE) * i64::from(RETURN_UNITS) + accumulated.value
    }
}

// k - k0.
fn above(variance: Variance, strike: Strike) -> i64
    ensures value { result ≡ pos variance.value -ℤ pos strike.value }
    ensures bound { unsigned_abs result ≤ 2100000000 }
{
    variance.value as i64 - i64::from(strike.value)
}

// The base price with a gain, less a return, in parts of a ten-thousandth.
fn on_base(gain: i64, less: i64, parts: u32) -> i64
    requires few { parts ≤ 100000000 }
    requires room { unsigned_abs gain + unsigned_abs less ≤ 3300000000 * parts }
    ensures value { result ≡ gain -ℤ less +ℤ base_price *ℤ pos parts }
    ensures bound { unsigned_abs result ≤ 3310000000 * parts }
{
    gain - less + BASE_PRICE * i64::from(parts)
}

// A signed number by an unsigned one.
fn times(signed: i64, factor: u32) -> i64
    requires { unsigned_abs signed * factor < 2 ^ 62 }
    ensures value { result ≡ signed *ℤ pos factor }
    ensures bound { unsigned_abs result ≡ unsigned_abs signed * factor }
{
    signed * i64::from(factor)
}
