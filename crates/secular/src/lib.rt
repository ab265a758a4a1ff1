// Floored polynomials: what changes slowly with time, in whole units.
#![tactic(auto)]

ghost use Rattle.std.specs.Prelude.{◌≡◌, ◌≤◌, nat_abs};
ghost use Rattle.secular.specs.FlooredPolynomial.{value};
ghost use Rattle.secular.specs.Sizes.{Sized, most_millionths, most};

// What the square of a number of millionths is divided by.
pub const SQUARE: i64 = 1_000_000_000_000;

// The coefficients: c0 as it is, c1 for a million of x, c2 for a million squared where the divisor is 10^12.
#[derive(Clone, Copy, Debug, PartialEq, Eq)]
pub struct Polynomial {
    pub c0: i64,
    pub c1: i64,
    pub c2: i64,
    pub divisor: i64,
}

// c0 + c1·x / 10^6 + c2·x² / divisor, each quotient rounded down; x is in millionths, of a century of either kind.
pub fn value(c: Polynomial, x: i64) -> i64
    requires { Sized c × (nat_abs x ≤ most_millionths) }
    ensures { (result ≡ value c x) × (nat_abs result ≤ most c) }
{
    c.c0 + exact::floor_div(c.c1 * x, 1_000_000) + exact::floor_div(c.c2 * (x * x), c.divisor)
}
