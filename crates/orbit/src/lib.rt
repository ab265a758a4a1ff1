// The ellipse of the Earth's orbit: the true anomaly, the radius vector, and the aberration in longitude that this gives. Distances and the
// eccentricity are in units of 10^−9, angles in units of 0.0001 second of arc.
#![tactic(auto)]

ghost use Rattle.std.specs.Prelude.{◌≡◌, ◌*◌, ◌≤◌, ◌<◌, ◌^◌, nat_abs, ◌+ℤ◌};
ghost use Rattle.exact.specs.Reduction.{turn, reduced};
ghost use Rattle.secular.specs.Sizes.{most_millionths};
ghost use Rattle.sine_table.specs.Table.{R};
ghost use Rattle.arguments.specs.PrintedArguments.{arguments_of};
ghost use Rattle.sun.specs.Longitude.{equation_of_centre};
ghost use Rattle.orbit.specs.Sizes.{eccentricity_most, RadiusSized};
ghost use Rattle.orbit.specs.Orbit.{eccentricity, radius_by, radius_vector, at_distance, aberration};

use epoch::Epoch;
use secular::{Polynomial, SQUARE};
use sine::RADIUS;

// The eccentricity of the Earth's orbit, in units of 10^−9: 0.01675104 − 0.0000418 T − 0.000000126 T² (source 004).
const ECCENTRICITY: Polynomial = Polynomial {
    c0: 16_751_040,
    c1: -41_800,
    c2: -126,
    divisor: SQUARE,
};

// A mean angle with the equation of the centre, reduced.
pub fn true_angle(mean: i64, equation: i64) -> u64
    requires { (nat_abs mean < turn) × (nat_abs equation ≤ 2 ^ 27) }
    ensures { (result ≡ reduced (mean +ℤ equation)) × (result < turn) }
{
    exact::reduced_bounded(mean + equation)
}

// The eccentricity at q.
fn eccentricity(q: i64) -> i64
    requires { nat_abs q ≤ most_millionths }
    ensures { (result ≡ eccentricity q) × (nat_abs result ≤ eccentricity_most) }
{
    secular::value(ECCENTRICITY, q)
}

// The radius vector of an eccentricity and the cosine of a true anomaly.
fn radius_by(e: i64, cosine: i64) -> u64
    requires { (nat_abs e ≤ eccentricity_most) × (nat_abs cosine ≤ R) }
    ensures { (result ≡ radius_by e cosine) × RadiusSized result }
{
    let divisor = RADIUS + exact::nearest_div(e * cosine, RADIUS);
    exact::nearest_div(RADIUS * RADIUS - e * e, divisor) as u64
}

// The radius vector at an epoch, from its arguments and the equation of the centre.
pub fn radius_vector(equation: i64, arguments: &[i64; arguments::COUNT], e: Epoch) -> u64
    requires { (arguments.now ≡ arguments_of e) × ((equation ≡ equation_of_centre (arguments_of e) e.q) × (nat_abs equation ≤ 2 ^ 27)) }
    ensures { (result ≡ radius_vector e) × RadiusSized result }
{
    let v = true_angle(arguments[arguments::MS], equation);
    radius_by(eccentricity(e.q), sine::cos(v))
}

// What is c at the mean distance, at a distance.
pub fn at_distance(c: i64, radius_vector: u64) -> i64
    requires { RadiusSized radius_vector × (nat_abs c ≤ 2 ^ 24) }
    ensures { (result ≡ at_distance c radius_vector) × (nat_abs result ≤ 2 * nat_abs c) }
{
    exact::nearest_div(c * RADIUS, radius_vector as i64)
}

// The aberration in longitude at a distance.
pub fn aberration(radius_vector: u64) -> i64
    requires { RadiusSized radius_vector }
    ensures { (result ≡ aberration radius_vector) × (nat_abs result ≤ 2 ^ 20) }
{
    at_distance(sun::ABERRATION, radius_vector)
}
