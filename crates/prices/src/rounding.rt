// The quotient n / d, rounded.
ghost use Rattle.std.specs.Prelude.{◌≡◌, ◌+◌, ◌*◌, ◌^◌, ◌<◌, ◌≤◌, unsigned_abs};
ghost use Rattle.prices.specs.Rounding.{nearest as nearest_of, nearestℤ, up as up_of};

// The divisor is a plain number above 0. Of a NonZeroU64 each caller would have to answer the None that making one may give, and a
// type of this crate would be made at each call, of one of two widths, and taken apart at once.

// The least whole number not below n / d.
#[tactic(auto, using(crate::proofs::Quotients::up_is))]
pub(crate) fn up(n: u64, d: u64) -> u64
    requires { 0 < d }
    ensures { result ≡ up_of n d }
{
    n.div_ceil(d)
}

// The nearest whole number to n / d, halves up.
pub(crate) fn nearest(n: u64, d: u64) -> u64
    requires divisor { 0 < d }
    requires room { 2 * n + 2 * d < 2 ^ 64 }
    ensures { result ≡ nearest_of n d }
{
    (2 * n + d) / (2 * d)
}

// The nearest whole number to a signed n / d, halves away from zero.
pub(crate) fn nearest_signed(n: i64, d: u32) -> i64
    requires divisor { 0 < d }
    requires room { unsigned_abs n < 2 ^ 60 }
    ensures value { result ≡ nearestℤ n d }
    ensures bound { 2 * (unsigned_abs result * d) ≤ 2 * unsigned_abs n + d }
{
    let size = nearest(n.unsigned_abs(), u64::from(d)) as i64;
    if n < 0 { -size } else { size }
}
