// The table sine and cosine. An angle is reduced, in units of 0.0001 second of arc; a sine is scaled to 1,000,000,000.
#![tactic(auto)]

ghost use Rattle.std.specs.Prelude.{◌≡◌, ◌*◌, ◌≤◌, ◌<◌, nat_abs};
ghost use Rattle.exact.specs.Reduction.{Q, turn};
ghost use Rattle.sine_table.specs.Step.{step};
ghost use Rattle.sine_table.specs.Table.{R};
ghost use Rattle.sine.specs.Sine.{interpolated, half, sin_quadrant, Cos};
ghost use Rattle.sine.specs.SineContract.{IsSine};

use sine_table::STEP;

// A quadrant, in units of 0.0001 second of arc.
pub const QUADRANT: u64 = 3_240_000_000;

// What 1 is scaled to, in sines and in the components of a direction: document 01's R.
pub const RADIUS: i64 = 1_000_000_000;

// The number at r units of a step from low up to high, to nearest: low, and the share of what is between them.
pub fn interpolated(low: u64, high: u64, r: u64) -> u64
    requires { (low ≤ high) × (high ≤ R) × (r ≤ step) }
    ensures { (result ≡ interpolated low high r) × (result ≤ R) }
{
    low + ((high - low) * r + STEP / 2) / STEP
}

// Sin on the first quadrant, its end left out.
fn sin_quadrant(a: u64) -> u64
    requires { a < Q }
    ensures { (result ≡ sin_quadrant a) × (result ≤ R) }
{
    let n = (a / STEP) as usize;
    interpolated(
        sine_table::entry_at(n),
        sine_table::entry_at(n + 1),
        a % STEP,
    )
}

// Sin on the first half of the turn, its end included: mirrored at a quadrant, where it is R.
fn sin_half(a: u64) -> u64
    requires { a ≤ 2 * Q }
    ensures { (result ≡ half sin_quadrant a) × (result ≤ R) }
{
    if a < QUADRANT {
        sin_quadrant(a)
    } else if QUADRANT < a {
        sin_quadrant(2 * QUADRANT - a)
    } else {
        RADIUS as u64
    }
}

// Sin of an angle from 0 to a turn.
pub fn sin(a: u64) -> i64
    requires { a ≤ turn }
    ensures { IsSine a result }
{
    if a <= 2 * QUADRANT {
        sin_half(a) as i64
    } else {
        -(sin_half(a - 2 * QUADRANT) as i64)
    }
}

// Cos of a reduced angle: the sine of a quadrant more, reduced.
pub fn cos(a: u64) -> i64
    requires { a < turn }
    ensures { (result ≡ Cos a) × (nat_abs result ≤ R) }
{
    if a < 3 * QUADRANT {
        sin(a + QUADRANT)
    } else {
        sin(a - 3 * QUADRANT)
    }
}
