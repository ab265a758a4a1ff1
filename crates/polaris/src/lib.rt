// The direction of Polaris: the position in the FK4 with proper motion, precession, nutation and aberration. Angles are in units of 0.0001″;
// ε₀ is the mean obliquity, Δψ the nutation in longitude, ε the true obliquity.
#![tactic(auto)]

mod tables;

ghost use Rattle.std.specs.Prelude.{◌≡◌, ◌+◌, ◌*◌, ◌≤◌, ◌<◌, ◌^◌, nat_abs, neg_ℤ};
ghost use Rattle.exact.specs.Reduction.{turn};
ghost use Rattle.secular.specs.Sizes.{most_millionths};
ghost use Rattle.sine_table.specs.Table.{R};
ghost use Rattle.sine.specs.SineContract.{circle_most};
ghost use Rattle.rotation.specs.Rotation.{rotated, rotation3};
ghost use Rattle.rotation.specs.Length.{squared_length, growth};
ghost use Rattle.rotation.specs.Sizes.{reach, Bounded};
ghost use Rattle.polaris.specs.Elements.{tropical_millionths, elements_of};
ghost use Rattle.polaris.specs.Apparent.{scaled, catalogue, precessed, nutated, true_direction, aberration_parts, aberration, plus, direction};
ghost use Rattle.polaris.specs.Sizes.{ElementsSized, FrameSized, direction_most};

use epoch::Epoch;
use frame::Frame;
use rotation::Direction;

// The epoch 1975.0, in milliseconds since 1900 January 0.5: Julian date 2442413.478 (001 section 3.2).
const EPOCH_1975: i64 = 2_366_796_499_200;

// A tropical century of 36524.2199 days, in milliseconds (001 section 3.2).
const TROPICAL_CENTURY: i64 = 3_155_692_599_360;

// The constant of aberration, 20.496″, in parts of R to the radian.
const ABERRATION_PARTS: i64 = 99_367;

// The angles that change with p, in units: right ascension and declination with their proper motion, and precession's ζ, θ and z.
#[derive(Clone, Copy, Debug, PartialEq, Eq)]
pub struct Elements {
    pub alpha: i64,
    pub delta: i64,
    pub zeta: i64,
    pub theta: i64,
    pub z: i64,
}

// p, the millionths of a tropical century since 1975.0.
pub fn tropical_millionths(e: Epoch) -> i64
    ensures { (result ≡ tropical_millionths e) × (nat_abs result ≤ most_millionths) }
{
    exact::floor_div(1_000_000 * (e.n - EPOCH_1975), TROPICAL_CENTURY)
}

// The angles at p.
pub fn elements_of(p: i64) -> Elements
    requires { nat_abs p ≤ most_millionths }
    ensures { (result ≡ elements_of p) × ElementsSized result }
{
    let zeta = secular::value(tables::ZETA, p);
    Elements {
        alpha: secular::value(tables::RIGHT_ASCENSION, p),
        delta: secular::value(tables::DECLINATION, p),
        zeta,
        theta: secular::value(tables::THETA, p),
        z: zeta + secular::value(tables::Z_LESS_ZETA, p),
    }
}

// d rotated by R3(−a).
fn rotated_back(a: i64, d: Direction) -> Direction
    requires { (nat_abs a < 2 ^ 40) × (squared_length d ≤ reach) }
    ensures { (result ≡ rotated (rotation3 (neg_ℤ a)) d) × (squared_length result ≤ squared_length d + growth) }
{
    rotation::rotated(rotation::rotation3(-a), d)
}

// The direction of a right ascension and a declination: that of the declination on the meridian of the equinox, rotated back by the right
// ascension.
pub fn catalogue(alpha: i64, delta: i64) -> Direction
    requires { (nat_abs alpha < 2 ^ 40) × (nat_abs delta < 2 ^ 40) }
    ensures { (result ≡ catalogue alpha delta) × (squared_length result ≤ circle_most + growth) }
{
    let d = exact::reduced_bounded(delta);
    rotated_back(alpha, [sine::cos(d), 0, sine::sin(d)])
}

// Precession, from the equinox of 1975.0 to that of the date.
#[tactic(auto, unfolding(crate::specs::Apparent::precessed))]
fn precessed(k: Elements, d: Direction) -> Direction
    requires { ElementsSized k × (squared_length d + 2 * growth ≤ reach) }
    ensures { (result ≡ precessed k.zeta k.theta k.z d) × (squared_length result ≤ squared_length d + 3 * growth) }
{
    let a = rotation::rotated(rotation::rotation2(k.theta), rotated_back(k.zeta, d));
    rotated_back(k.z, a)
}

// Nutation, from the mean equinox of the date to the true one.
#[tactic(auto, unfolding(crate::specs::Apparent::nutated))]
fn nutated(f: Frame, d: Direction) -> Direction
    requires { FrameSized f × (squared_length d + 2 * growth ≤ reach) }
    ensures { (result ≡ nutated f.epsilon0 f.dpsi f.epsilon d) × (squared_length result ≤ squared_length d + 3 * growth) }
{
    let a = rotation::rotated(rotation::rotation1(f.epsilon0), d);
    rotation::rotated(rotation::rotation1(-f.epsilon), rotated_back(f.dpsi, a))
}

// The direction without aberration, of ε₀, Δψ and ε, which are a frame.
#[tactic(auto, unfolding(crate::specs::Apparent::true_direction))]
pub fn true_direction(k: Elements, f: Frame) -> Direction
    requires { ElementsSized k × FrameSized f }
    ensures { (result ≡ true_direction k f.epsilon0 f.dpsi f.epsilon) × (squared_length result ≤ circle_most + 7 * growth) }
{
    let d = catalogue(k.alpha, k.delta);
    nutated(f, precessed(k, d))
}

// a·b over R, to nearest.
fn scaled(a: i64, b: i64) -> i64
    requires { (nat_abs a ≤ R) × (nat_abs b ≤ R) }
    ensures { (result ≡ scaled a b) × (nat_abs result ≤ nat_abs a) }
{
    exact::nearest_div(a * b, sine::RADIUS)
}

// What aberration adds, where g is the Sun's longitude by the centre terms alone, reduced.
fn aberration(epsilon: i64, g: u64) -> Direction
    requires { (nat_abs epsilon < 2 ^ 40) × (g < turn) }
    ensures { (result ≡ aberration epsilon g) × Bounded aberration_parts result }
{
    let e = exact::reduced_bounded(epsilon);
    let c = -sine::cos(g);
    let x = scaled(ABERRATION_PARTS, sine::sin(g));
    let y = scaled(ABERRATION_PARTS, scaled(c, sine::cos(e)));
    let z = scaled(ABERRATION_PARTS, scaled(c, sine::sin(e)));
    [x, y, z]
}

// The sum of a direction and of what aberration adds to it.
fn plus(d: Direction, a: Direction) -> Direction
    requires { (squared_length d ≤ reach) × Bounded aberration_parts a }
    ensures { (result ≡ plus d a) × (squared_length result ≤ squared_length d + 9 * 10 ^ 14) }
{
    [d[0] + a[0], d[1] + a[1], d[2] + a[2]]
}

// The apparent direction of Polaris at an epoch, of ε₀, Δψ and ε, which are a frame, and of g.
#[tactic(auto, unfolding(crate::specs::Apparent::direction))]
pub fn direction(e: Epoch, f: Frame, g: u64) -> Direction
    requires { FrameSized f × (g < turn) }
    ensures { (result ≡ direction e f.epsilon0 f.dpsi f.epsilon g) × (squared_length result ≤ direction_most) }
{
    let k = elements_of(tropical_millionths(e));
    plus(true_direction(k, f), aberration(f.epsilon, g))
}
