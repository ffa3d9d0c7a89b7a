// Returns between index values, and their squares.
ghost use Rattle.std.specs.Prelude.{◌≡◌, ◌+◌, ◌*◌, ◌≤◌, true, false, Some, None};
ghost use Rattle.prices.specs.Returns.{admitted, distance as distance_of, ratio as ratio_of, product as product_of, series as series_of, return_of, square_of};

use quantities::IndexValue;

// One, to ten places.
const ONE: u64 = 10_000_000_000;

// A square of ten places has twenty: all but twelve of them.
const PLACES_DROPPED: u64 = 100_000_000;

// R, the size of a logarithmic return, in units of 10^-10. No admitted pair has a larger one than the limit.
#[derive(Clone, Copy, PartialEq, Eq)]
pub struct Return {
    pub value: u64,
    ghost ok: { value ≤ 2876820718 },
}

// Whether an index value is admitted after another: neither is above 4/3 of the other.
pub fn admits(before: IndexValue, after: IndexValue) -> bool
    ensures { result ≡ admitted before.value after.value }
{
    let (before, after) = (u64::from(before.value), u64::from(after.value));
    3 * after <= 4 * before && 3 * before <= 4 * after
}

impl Return {
    // R from one index value to the next, or none where the next is not admitted.
    pub fn between(before: IndexValue, after: IndexValue) -> Option<Return>
        ensures { elim result [ None ↦ admitted before.value after.value ≡ false | Some x ↦ (admitted before.value after.value ≡ true) × (x.value ≡ return_of before.value after.value) ] }
    {
        if !admits(before, after) {
            return None;
        }
        Some(series(ratio(before, after)))
    }

    // U, the square of R, in units of 10^-12.
    pub fn squared(self) -> u64
        ensures value { result ≡ square_of self.value }
        ensures bound { result ≤ 83000000000 }
    {
        self.value * self.value / PLACES_DROPPED
    }
}

// z or a power of it, to ten places: at most a seventh.
#[derive(Clone, Copy)]
struct Power {
    value: u64,
    ghost ok: { value ≤ 1428571428 },
}

impl Power {
    // The product, to ten places: at most a seventh of the first, and a forty-ninth where the second is a square.
    fn times(self, other: Power) -> Power
        ensures value { result.value ≡ product_of self.value other.value }
        ensures seventh { 7 * result.value ≤ self.value }
        ensures square { other.value ≤ 204081632 → 49 * result.value ≤ self.value }
    {
        Power {
            value: self.value * other.value / ONE,
        }
    }
}

// z, the distance of two values over their sum, to ten places.
fn ratio(before: IndexValue, after: IndexValue) -> Power
    requires { admitted before.value after.value ≡ true }
    ensures { result.value ≡ ratio_of (distance_of before.value after.value) (before.value + after.value) }
{
    let (before, after) = (u64::from(before.value), u64::from(after.value));
    Power {
        value: before.abs_diff(after) * ONE / (before + after),
    }
}

// Twice the sum of the first five odd powers of z, each over its exponent.
fn series(z: Power) -> Return
    ensures { result.value ≡ series_of z.value (product_of z.value z.value) }
{
    // w is the square of z, and c1 to c4 are its powers 3, 5, 7 and 9.
    let w = z.times(z);
    let c1 = z.times(w);
    let c2 = c1.times(w);
    let c3 = c2.times(w);
    let c4 = c3.times(w);
    Return {
        value: 2 * (z.value + c1.value / 3 + c2.value / 5 + c3.value / 7 + c4.value / 9),
    }
}
