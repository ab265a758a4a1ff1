// Exact arithmetic on whole numbers: floor and nearest division, products wider than 64 bits, reduction to a turn, the integer
// square root. Document 01, "Units and rounding".
#![tactic(auto)]

ghost use Rattle.std.specs.Prelude.{◌≡◌, ◌+◌, ◌*◌, ◌/◌, ◌<◌, ◌≤◌, ◌^◌, pos, nat_abs, ◌+ℤ◌, ◌*ℤ◌, ◌<ℤ◌, ◌≤ℤ◌};
ghost use Rattle.exact.specs.Division.{floor_div, nearest_div};
ghost use Rattle.exact.specs.Reduction.{turn, is_reduced, reduced, short_way};
ghost use Rattle.exact.specs.Century.{century};
ghost use Rattle.exact.specs.Largest.{root};
ghost use Rattle.exact.specs.Range.{between};

// A turn, in units of 0.0001″.
pub const TURN: i64 = 12_960_000_000;

// So many whole turns that any angle of at most 2^61 units is natural with them.
const TURNS: i64 = 200_000_000 * TURN;

// A Julian century of 36,525 days, in milliseconds: document 01's C.
pub const CENTURY: i64 = 3_155_760_000_000;

// A millionth of a century, in milliseconds.
pub const MILLIONTH: u64 = 3_155_760;

// Whether x lies between two numbers, both included.
pub fn between(low: i64, x: i64, high: i64) -> bool
    ensures { result ≡ between low x high }
{
    low <= x && x <= high
}

// A number without its sign; also of the least i64, whose negative is no i64.
pub fn magnitude(x: i64) -> u64
    ensures { result ≡ nat_abs x }
{
    if x < 0 {
        (-(x + 1)) as u64 + 1
    } else {
        x as u64
    }
}

// a / d, rounded toward minus infinity. With so many multiples of d more a is natural, and they are taken away from the quotient: no
// sign is tested, and a literal d makes their number a constant.
pub fn floor_div(a: i64, d: i64) -> i64
    requires { (pos 0 <ℤ d) × (nat_abs a + nat_abs d ≤ 2 ^ 62) }
    ensures { result ≡ floor_div a (nat_abs d) }
{
    let k = 4_611_686_018_427_387_904 / d;
    ((a + k * d) as u64 / d as u64) as i64 - k
}

// The whole number nearest to a / d, a half rounded up: the floor with half of d more.
pub fn nearest_div(a: i64, d: i64) -> i64
    requires { (pos 0 <ℤ d) × (nat_abs a + 2 * nat_abs d ≤ 2 ^ 62) }
    ensures { result ≡ nearest_div a (nat_abs d) }
{
    floor_div(a + d / 2, d)
}

// Whether an angle is reduced: 0 to a turn less one unit.
pub fn is_reduced(a: i64) -> bool
    ensures { result ≡ is_reduced a }
{
    between(0, a, TURN - 1)
}

// The angle a in one turn.
pub fn reduced(a: i64) -> u64
    ensures { (result ≡ reduced a) × (result < turn) }
{
    let r = a % TURN;
    if r < 0 { (r + TURN) as u64 } else { r as u64 }
}

// The same of an angle of at most 2^61 units, without a test of the sign.
pub fn reduced_bounded(a: i64) -> u64
    requires { nat_abs a ≤ 2 ^ 61 }
    ensures { (result ≡ reduced a) × (result < turn) }
{
    (a + TURNS) as u64 % TURN as u64
}

// How far two reduced angles are apart the short way round.
pub fn short_way(a: u64, b: u64) -> u64
    requires { (a < turn) × (b < turn) }
    ensures { result ≡ short_way a b }
{
    let apart = a.abs_diff(b);
    let round = TURN as u64 - apart;
    if round < apart { round } else { apart }
}

// b * n / CENTURY, rounded down, of natural numbers. As CENTURY is 1,000,000 * MILLIONTH, n = q * MILLIONTH + r has the quotient
// (b * q + b * r / MILLIONTH) / 1,000,000, whose products fit.
fn rest_per_century(b: u64, n: u64) -> u64
    requires { (b < century) × (n < 2 ^ 43) }
    ensures { (result ≡ b * n / century) × (result ≤ n) }
{
    (b * (n / MILLIONTH) + b * (n % MILLIONTH) / MILLIONTH) / 1_000_000
}

// c * n / CENTURY, rounded down, for a natural n, where the product may have 88 bits. With c = CENTURY * whole + rest it is
// rest * n / CENTURY + whole * n, and c is given in these two parts.
pub fn per_century(whole: i64, rest: i64, n: i64) -> i64
    requires { (nat_abs whole ≤ 12) × ((pos 0 ≤ℤ rest) × (nat_abs rest < century)) × ((pos 0 ≤ℤ n) × (nat_abs n < 2 ^ 43)) }
    ensures { result ≡ floor_div ((pos century *ℤ whole +ℤ rest) *ℤ n) century }
{
    rest_per_century(rest as u64, n as u64) as i64 + whole * n
}

// The integer square root, the largest h with h * h <= x, by Newton's steps down from above: a step from any number lands at the
// root or above it. The first step, from 2^30, is worked out in the start.
// Kept: the library's `isqrt` halves 32 times and takes some 360 instructions, these steps some 60.
pub fn root(x: u64) -> u64
    ensures { (result ≡ root x) × (result * result ≤ x) }
{
    if x == 0 {
        return 0;
    }
    let mut h = (1_073_741_824 + x / 1_073_741_824) / 2;
    let mut q = x / h;
    while q < h {
        h = (h + q) / 2;
        q = x / h;
    }
    h
}
