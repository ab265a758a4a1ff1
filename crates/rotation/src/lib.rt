// Directions and their rotations. A direction has three components in units of 1 / 1,000,000,000; a rotation has three rows. Both go by
// value.
#![tactic(auto)]

ghost use Rattle.std.specs.Prelude.{◌≡◌, ◌+◌, ◌≤◌, ◌^◌, nat_abs, neg_ℤ};
ghost use Rattle.sine_table.specs.Table.{R};
ghost use Rattle.rotation.specs.Rotation.{dot, rotated, sin_of, cos_of, rotation1, rotation2, rotation3};
ghost use Rattle.rotation.specs.Length.{Rotation, squared_length, growth};
ghost use Rattle.rotation.specs.Sizes.{Bounded, reach, component_most, sum_most};

use sine::RADIUS;

// A direction's components x, y, z.
pub type Direction = [i64; 3];

// A rotation's rows, one for each component of the rotated direction.
pub type Matrix = [[i64; 3]; 3];

// The cosine and the sine of an angle, and the sine with its sign changed.
#[derive(Clone, Copy)]
struct Sines {
    cos: i64,
    sin: i64,
    minus: i64,
}

impl Sines {
    fn of(a: i64) -> Sines
        requires { nat_abs a ≤ 2 ^ 61 }
        ensures { (result.cos ≡ cos_of a) × (result.sin ≡ sin_of a) × (result.minus ≡ neg_ℤ (sin_of a)) }
    {
        let b = exact::reduced_bounded(a);
        let sin = sine::sin(b);
        Sines {
            cos: sine::cos(b),
            sin,
            minus: -sin,
        }
    }
}

// R1(a): the rotation by a, in units of 0.0001 second of arc, about the first axis.
pub fn rotation1(a: i64) -> Matrix
    requires { nat_abs a ≤ 2 ^ 61 }
    ensures { (result ≡ rotation1 a) × Rotation result }
{
    let k = Sines::of(a);
    [[RADIUS, 0, 0], [0, k.cos, k.sin], [0, k.minus, k.cos]]
}

// R2(a): the rotation by a about the second axis.
pub fn rotation2(a: i64) -> Matrix
    requires { nat_abs a ≤ 2 ^ 61 }
    ensures { (result ≡ rotation2 a) × Rotation result }
{
    let k = Sines::of(a);
    [[k.cos, 0, k.minus], [0, RADIUS, 0], [k.sin, 0, k.cos]]
}

// R3(a): the rotation by a about the third axis.
pub fn rotation3(a: i64) -> Matrix
    requires { nat_abs a ≤ 2 ^ 61 }
    ensures { (result ≡ rotation3 a) × Rotation result }
{
    let k = Sines::of(a);
    [[k.cos, k.sin, 0], [k.minus, k.cos, 0], [0, 0, RADIUS]]
}

// The exact sum of the products of a row and a direction.
fn dot(row: [i64; 3], d: Direction) -> i64
    requires { Bounded R row × Bounded component_most d }
    ensures { (result ≡ dot row d) × (nat_abs result ≤ sum_most) }
{
    row[0] * d[0] + row[1] * d[1] + row[2] * d[2]
}

// The direction d, rotated by m: each component the exact sum of a row, to nearest. It is hardly longer than d.
pub fn rotated(m: Matrix, d: Direction) -> Direction
    requires { Rotation m × (squared_length d ≤ reach) }
    ensures { (result ≡ rotated m d) × (squared_length result ≤ squared_length d + growth) }
{
    let x = exact::nearest_div(dot(m[0], d), RADIUS);
    let y = exact::nearest_div(dot(m[1], d), RADIUS);
    let z = exact::nearest_div(dot(m[2], d), RADIUS);
    [x, y, z]
}
