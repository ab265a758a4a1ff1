// The limb of the Sun that a pointing sights: what the horizontal angle to it lacks of that to the centre.
#![tactic(auto)]

ghost use Rattle.std.specs.Prelude.{◌≡◌, true, false, ◌<◌, ◌^◌, ◌≤◌, pos, nat_abs, ◌≤ℤ◌};
ghost use Rattle.exact.specs.Reduction.{turn, is_reduced};
ghost use Rattle.sine.specs.Sine.{Sin};
ghost use Rattle.orbit.specs.Sizes.{RadiusSized};
ghost use Rattle.limb.specs.Sizes.{sine_least};
ghost use Rattle.limb.specs.Limb.{is_centre};
ghost use Rattle.limb.specs.Limb.{semidiameter, correction, from_limb, centre_angle};
ghost use Rattle.limb.specs.Sizes.{SemidiameterSized, CorrectionSized};

use sine::RADIUS;

// The Sun's semidiameter at its mean distance, in units of 0.0001 second of arc: 0.266994°.
const SEMIDIAMETER: i64 = 9_611_784;

// The semidiameter at a distance, which is in units of 10^−9 of the mean one.
fn semidiameter(radius_vector: u64) -> i64
    requires { RadiusSized radius_vector }
    ensures { (result ≡ semidiameter radius_vector) × SemidiameterSized result }
{
    orbit::at_distance(SEMIDIAMETER, radius_vector)
}

// The same as a horizontal angle, at a zenith distance.
fn correction(radius_vector: u64, zenith_distance: u64) -> i64
    requires { RadiusSized radius_vector × (zenith_distance < turn) × (pos sine_least ≤ℤ Sin zenith_distance) }
    ensures { (result ≡ correction radius_vector zenith_distance) × CorrectionSized result }
{
    exact::nearest_div(
        semidiameter(radius_vector) * RADIUS,
        sine::sin(zenith_distance),
    )
}

// The angle from a limb to the centre, clockwise: 1 the centre itself, 2 the left limb, else the right one.
// Kept: the limb is a number and no enum, since the function answers for every number.
fn from_limb(limb: i64, radius_vector: u64, zenith_distance: u64) -> i64
    requires { (is_centre limb ≡ false → RadiusSized radius_vector) × (zenith_distance < turn) × (pos sine_least ≤ℤ Sin zenith_distance) }
    ensures { (result ≡ from_limb limb radius_vector zenith_distance) × (nat_abs result < 2 ^ 31) }
{
    if limb == 1 {
        return 0;
    }
    let correction = correction(radius_vector, zenith_distance);
    if limb == 2 { correction } else { -correction }
}

// The angle from the mark to the centre, of that to a limb.
pub fn centre_angle(limb: i64, radius_vector: u64, zenith_distance: u64, angle: i64) -> u64
    requires { ((is_centre limb ≡ false → RadiusSized radius_vector) × (zenith_distance < turn) × (pos sine_least ≤ℤ Sin zenith_distance)) × (is_reduced angle ≡ true) }
    ensures { (result ≡ centre_angle limb radius_vector zenith_distance angle) × (result < turn) }
{
    exact::reduced_bounded(angle + from_limb(limb, radius_vector, zenith_distance))
}
