// The frame of the date: nutation, the obliquity of the ecliptic, Greenwich sidereal time.
#![tactic(auto)]

mod tables;

ghost use Rattle.std.specs.Prelude.{◌≡◌, ◌≤◌, ◌<◌, ◌^◌, nat_abs};
ghost use Rattle.exact.specs.Reduction.{turn};
ghost use Rattle.arguments.specs.Sizes.{IsArguments};
ghost use Rattle.frame.specs.Nutation.{dpsi, deps};
ghost use Rattle.frame.specs.Sidereal.{equinoxes, sidereal_time};
ghost use Rattle.frame.specs.FrameContract.{IsFrame};

use epoch::Epoch;

// The orientation of the equator at an epoch, in units: ε₀, the mean obliquity; Δψ, the nutation in longitude; ε, the true obliquity, which is
// ε₀ with Δε, the nutation in obliquity.
#[derive(Clone, Copy, Debug, PartialEq, Eq)]
pub struct Frame {
    pub epsilon0: i64,
    pub dpsi: i64,
    pub epsilon: i64,
}

// Δψ of an epoch, from its arguments.
pub fn dpsi(arguments: &[i64], e: Epoch) -> i64
    requires { IsArguments arguments.now }
    ensures { (result ≡ dpsi arguments.now e.q) × (nat_abs result ≤ 2 ^ 20) }
{
    tables::DPSI.rounded_sum(arguments, e.q)
}

// Δε of an epoch, from its arguments. Kept beside `dpsi`: what both share is `rounded_sum` of any series, and each has its own definition.
fn deps(arguments: &[i64], e: Epoch) -> i64
    requires { IsArguments arguments.now }
    ensures { (result ≡ deps arguments.now e.q) × (nat_abs result ≤ 2 ^ 20) }
{
    tables::DEPS.rounded_sum(arguments, e.q)
}

// The frame of an epoch, from its arguments.
pub fn frame_of(arguments: &[i64], e: Epoch) -> Frame
    requires { IsArguments arguments.now }
    ensures { IsFrame arguments.now e.q result }
{
    let epsilon0 = arguments[arguments::EPSILON0];
    let dpsi = dpsi(arguments, e);
    let deps = deps(arguments, e);
    Frame {
        epsilon0,
        dpsi,
        epsilon: epsilon0 + deps,
    }
}

// The equation of the equinoxes: Δψ·Cos(ε), in units.
fn equinoxes(dpsi: i64, epsilon: i64) -> i64
    requires { (nat_abs dpsi ≤ 2 ^ 20) × (nat_abs epsilon < 2 ^ 35) }
    ensures { (result ≡ equinoxes dpsi epsilon) × (nat_abs result ≤ 2 ^ 20) }
{
    series::rounded(dpsi * sine::cos(exact::reduced_bounded(epsilon)))
}

// Greenwich sidereal time at an epoch of universal time, with the equation of the equinoxes. In a millisecond the Earth rotates by 150 units;
// the day begins at midnight, and N counts from noon.
pub fn sidereal_time(universal: Epoch, f: Frame) -> u64
    requires { (nat_abs f.dpsi ≤ 2 ^ 20) × (nat_abs f.epsilon < 2 ^ 35) }
    ensures { (result ≡ sidereal_time universal f.dpsi f.epsilon) × (result < turn) }
{
    let excess = arguments::argument(tables::SIDEREAL, universal) as i64;
    exact::reduced_bounded(150 * (universal.n + 43_200_000) + excess + equinoxes(f.dpsi, f.epsilon))
}
