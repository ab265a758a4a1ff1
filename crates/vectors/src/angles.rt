// The sine, the angle of a vector, and the view of a direction. Angles are in units of 0.0001″, components in parts of 1,000,000,000.
ghost use Rattle.std.specs.Prelude.{◌≡◌, ◌+◌, ◌*◌, ◌≤◌, ◌<◌};
ghost use Rattle.exact.specs.Reduction.{turn};
ghost use Rattle.rotation.specs.Length.{squared_length, growth};
ghost use Rattle.rotation.specs.Sizes.{reach};

use crate::output;
use rotation::Direction;
use site::{Position, Site};
use std::io::Stdout;

// A component of a vector is at most so large.
const REACH: u64 = 17_179_869_184;

// A component of a direction is at most so large.
const SIDE: u64 = 800_000_000;

// The sine and the cosine of a reduced angle.
pub fn sines(out: Stdout, a: i64) {
    if !exact::is_reduced(a) {
        return output::malformed(out);
    }
    let angle = exact::reduced(a);
    output::accepted(out);
    output::integer(out, sine::sin(angle));
    output::integer(out, sine::cos(angle));
}

// The angle of the vector (x, y).
pub fn of_vector(out: Stdout, x: i64, y: i64) {
    if REACH < exact::magnitude(x).max(exact::magnitude(y)) {
        return output::malformed(out);
    }
    output::accepted(out);
    output::natural(out, vector_angle::angle(x, y));
}

// The view of a direction (x, y, z) at a sidereal time, from a latitude and a longitude in 0.1″.
pub fn of_direction(out: Stdout, x: i64, y: i64, z: i64, sidereal: i64, site: Site) {
    let position = match site::position_of(site) {
        Ok(position) => position,
        Err(refusal) => return output::refused(out, refusal),
    };
    if !exact::is_reduced(sidereal) {
        return output::malformed(out);
    }
    let side = exact::magnitude(x).max(exact::magnitude(y));
    if SIDE < side.max(exact::magnitude(z)) {
        return output::malformed(out);
    }
    from_position(out, [x, y, z], exact::reduced(sidereal), position);
}

fn from_position(out: Stdout, d: Direction, sidereal: u64, position: Position)
    requires { (squared_length d + 2 * growth ≤ reach) × (sidereal < turn) }
{
    let sight = horizon::sight(d, sidereal, position);
    output::sight_begin(out, sight);
    write_view(out, d, sidereal, position);
    output::sight_end(out, sight);
}

// A direction d, then (x', east, z), then up and north.
pub fn write_view(out: Stdout, d: Direction, sidereal: u64, position: Position)
    requires { (squared_length d + 2 * growth ≤ reach) × (sidereal < turn) }
{
    let m = horizon::to_meridian(d, sidereal, position.longitude);
    let h = horizon::to_horizon(m, position.latitude);
    output::integers(out, &d);
    output::integers(out, &m);
    output::integers(out, &[h[0], h[2]]);
}
