// A direction at an observer's horizon. Latitude and longitude are in units of 0.0001 second of arc, north and east positive.
#![tactic(auto)]

ghost use Rattle.std.specs.Prelude.{◌≡◌, ◌+◌, ◌*◌, ◌≤◌, ◌<◌, ◌^◌, nat_abs, pos, IfOk};
ghost use Rattle.exact.specs.Reduction.{turn};
ghost use Rattle.rotation.specs.Length.{squared_length, growth};
ghost use Rattle.rotation.specs.Sizes.{reach, component_most};
ghost use Rattle.horizon.specs.Horizon.{to_meridian, to_horizon, view, view_from, sight_of, sight_values, horizontal_square};
ghost use Rattle.horizon.specs.Sizes.{SightReduced, square_most};

use refusal::Refusal;
use rotation::Direction;
use site::Position;

// North² + east² is at least this: nearer to the zenith, or to the nadir, an azimuth is refused.
const LEAST_SQUARE: u64 = 100_000_000_000_000;

// Where the body stands, in units of 0.0001 second of arc: the azimuth from north clockwise, the zenith distance, and the hour angle,
// positive to the west.
#[derive(Clone, Copy, Debug, PartialEq, Eq)]
pub struct SightAngles {
    pub azimuth: u64,
    pub zenith_distance: u64,
    pub hour_angle: u64,
}

// The direction (x', east, z): d rotated to the meridian of a longitude.
#[tactic(auto, unfolding(crate::specs::Horizon::to_meridian))]
pub fn to_meridian(d: Direction, sidereal: u64, longitude: i64) -> Direction
    requires { (squared_length d ≤ reach) × (sidereal < turn) × (nat_abs longitude < 2 ^ 40) }
    ensures { (result ≡ to_meridian (pos sidereal) longitude d) × (squared_length result ≤ squared_length d + growth) }
{
    rotation::rotated(rotation::rotation3(sidereal as i64 + longitude), d)
}

// Up, east and north of a direction (x', east, z) at a latitude.
pub fn to_horizon(m: Direction, latitude: i64) -> Direction
    requires { (squared_length m ≤ reach) × (nat_abs latitude < 2 ^ 40) }
    ensures { (result ≡ to_horizon latitude m) × (squared_length result ≤ squared_length m + growth) }
{
    rotation::rotated(rotation::rotation2(-latitude), m)
}

// The components by which a body is seen: x' of the direction at the meridian, and up, east and north.
#[derive(Clone, Copy)]
struct View {
    x: i64,
    up: i64,
    east: i64,
    north: i64,
    ghost x_small: { nat_abs x ≤ component_most },
    ghost up_small: { nat_abs up ≤ component_most },
    ghost east_small: { nat_abs east ≤ component_most },
    ghost north_small: { nat_abs north ≤ component_most },
}

impl View {
    // North² + east².
    #[tactic(auto, unfolding(crate::specs::Horizon::horizontal_square))]
    fn horizontal_square(self) -> u64
        ensures { (result ≡ horizontal_square self.north self.east) × (result ≤ square_most) }
    {
        let n = exact::magnitude(self.north);
        let e = exact::magnitude(self.east);
        n * n + e * e
    }

    // The angles of the body; refusal 7 before 8.
    #[tactic(auto, unfolding(crate::specs::Horizon::sight_of))]
    fn angles(self) -> Result<SightAngles, Refusal>
        ensures { (sight_values result ≡ sight_of (view self.x self.up self.east self.north)) × IfOk result SightReduced }
    {
        if self.up < 0 {
            return Err(Refusal::BelowHorizon);
        }
        let square = self.horizontal_square();
        if square < LEAST_SQUARE {
            return Err(Refusal::NearZenith);
        }
        let h = exact::root(square) as i64;
        Ok(SightAngles {
            azimuth: vector_angle::angle(self.north, self.east),
            zenith_distance: vector_angle::angle(self.up, h),
            hour_angle: vector_angle::angle(self.x, -self.east),
        })
    }
}

// What an observer at a position sees of a body in direction d, at a sidereal time of Greenwich.
#[tactic(auto, unfolding(crate::specs::Horizon::view_from))]
pub fn sight(d: Direction, sidereal: u64, position: Position) -> Result<SightAngles, Refusal>
    requires { (squared_length d + 2 * growth ≤ reach) × (sidereal < turn) }
    ensures { (sight_values result ≡ sight_of (view_from (pos sidereal) position d)) × IfOk result SightReduced }
{
    let m = to_meridian(d, sidereal, position.longitude);
    let [up, east, north] = to_horizon(m, position.latitude);
    let seen = View {
        x: m[0],
        up,
        east,
        north,
    };
    seen.angles()
}
