// Whole cents and what is left over.
ghost use Rattle.std.specs.Prelude.{◌≡◌, ◌≤◌, pos, ◌+ℤ◌, ◌*ℤ◌};
ghost use Rattle.prices.specs.Cents.{cents as cents_of, rest as rest_of};

// Ten-thousandths of a dollar in a cent.
pub const CENT: i64 = 100;

// The whole cents of an amount in ten-thousandths, rounded down below zero too, and its rest of 0 to 99.
pub fn split(amount: i64) -> (i64, u8)
    ensures cents { result.0 ≡ cents_of amount }
    ensures rest { result.1 ≡ rest_of amount }
    ensures bound { result.1 ≤ 99 }
    ensures whole { result.0 *ℤ pos 100 +ℤ pos result.1 ≡ amount }
{
    (amount.div_euclid(CENT), amount.rem_euclid(CENT) as u8)
}
