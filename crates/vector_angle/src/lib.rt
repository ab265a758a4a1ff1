// The angle of a vector. Components are numbers of at most 2^34, an angle is in units of 0.0001 second of arc.
#![tactic(auto)]

ghost use Rattle.std.specs.Prelude.{◌≡◌, ◌+◌, ◌*◌, ◌/◌, ◌≤◌, ◌<◌, ◌^◌, nat_abs};
ghost use Rattle.exact.specs.Reduction.{Q, turn};
ghost use Rattle.exact.specs.Largest.{Among};
ghost use Rattle.sine_table.specs.Step.{step};
ghost use Rattle.sine_table.specs.Table.{step_count};
ghost use Rattle.vector_angle.specs.VectorAngle.{start_passes, last_step, IsStep, unit_passes, last_unit, quadrant_angle, angle};

use sine::QUADRANT;
use sine_table::{STEP, STEPS};

// 2^43: half a step times a number below it fits in 64 bits.
const LARGE: u64 = 8_796_093_022_208;

// 2^14: other numbers are divided in grains of so many.
const GRAIN: u64 = 16_384;

// Step n of the table: the sine and the cosine at its start, and how far the one rises and the other falls to its end.
#[derive(Clone, Copy)]
struct Step {
    n: usize,
    sine: u64,
    cosine: u64,
    rise: u64,
    fall: u64,
    ghost in_table: { n < step_count },
    ghost is_step: { IsStep n sine cosine rise fall },
}

impl Step {
    fn at(n: usize) -> Step
        requires { n < step_count }
        ensures { result.n ≡ n }
    {
        let sine = sine_table::entry_at(n);
        let cosine = sine_table::entry_at(STEPS - n);
        let rise = sine_table::entry_at(n + 1) - sine;
        let fall = cosine - sine_table::entry_at(STEPS - n - 1);
        Step {
            n,
            sine,
            cosine,
            rise,
            fall,
        }
    }
}

// How many units part/whole of half a step is, rounded down: of small numbers exactly, and of large ones, divided in grains, with up to
// a twentieth of a unit lost before.
fn share(part: u64, whole: u64) -> u64
    requires { (0 < whole) × (part ≤ 2 * whole) × (whole ≤ 2 ^ 56) }
    ensures { (result * whole ≤ part * (step / 2)) × (20 * (part * (step / 2)) < (20 * result + 21) * whole) }
{
    if part < LARGE {
        part * (STEP / 2) / whole
    } else {
        part / GRAIN * (STEP / 2) / (whole / GRAIN + 1)
    }
}

// A vector of the first quadrant, with components whose products with a sine fit in 64 bits.
#[derive(Clone, Copy)]
struct Vector {
    x: u64,
    y: u64,
    ghost x_bounded: { x ≤ 2 ^ 34 },
    ghost y_bounded: { y ≤ 2 ^ 34 },
}

impl Vector {
    // Whether the start of step n passes, from which on the table has `rest` steps: the sine there is an entry, and so is the cosine, as far
    // from the other end.
    #[tactic(auto, using(crate::proofs::Passing::start_is))]
    fn start_passes(self, n: usize, rest: usize) -> bool
        requires { n + rest ≡ step_count }
        ensures { result ≡ start_passes self.x self.y n }
    {
        self.x * sine_table::entry_at(n) <= self.y * sine_table::entry_at(rest)
    }

    // The last step whose start passes, by halves: it is one of the `left` steps from n on. `rest` is kept beside n, so that no try waits
    // for a difference.
    fn last_step(self) -> usize
        requires { 0 < self.x }
        ensures { (result ≡ last_step self.x self.y) × Among (start_passes self.x self.y) result 1 step_count }
    {
        let mut n: usize = 0;
        let mut rest: usize = STEPS;
        let mut left: usize = STEPS;
        while 1 < left {
            let half = left / 2;
            if self.start_passes(n + half, rest - half) {
                n += half;
                rest -= half;
            }
            left -= half;
        }
        n
    }

    // Whether the angle r units into a step passes.
    #[tactic(auto, using(crate::proofs::Passing::unit_is))]
    fn unit_passes(self, s: Step, r: u64) -> bool
        requires { r ≤ step }
        ensures { result ≡ unit_passes self.x self.y s.n r }
    {
        let sine = sine::interpolated(s.sine, s.sine + s.rise, r);
        let cosine = sine::interpolated(s.cosine - s.fall, s.cosine, STEP - r);
        self.x * sine <= self.y * cosine
    }

    // The first of four units of a step among which is the last that passes. Over the step x·Sin and y·Cos are straight lines, but for
    // their roundings: at its start y·Cos is ahead by `gap`, and to its end the two come nearer by `slope`. As a rounding is a half at
    // most, the test passes while y·Cos is ahead by (x + y) / 2, and fails once it is behind by more than that, less than three units on.
    fn window(self, s: Step) -> u64
        requires { Among (start_passes self.x self.y) s.n 1 step_count }
        ensures { Among (unit_passes self.x self.y s.n) result 4 step }
    {
        let gap = self.y * s.cosine - self.x * s.sine;
        let slope = self.x * s.rise + self.y * s.fall;
        let open = self.x + self.y;
        if 2 * gap < open {
            return 0;
        }
        share(2 * gap - open, slope).min(STEP - 4)
    }

    // One try: of the units of a step from r on, twice `half` of them, the first of the half that has the last that passes.
    fn nearer(self, s: Step, r: u64, half: u64) -> u64
        requires { Among (unit_passes self.x self.y s.n) r (2 * half) step }
        ensures { Among (unit_passes self.x self.y s.n) result half step }
    {
        if self.unit_passes(s, r + half) {
            r + half
        } else {
            r
        }
    }

    // The last unit of a step that passes. Two tries settle which of the four it is.
    #[tactic(auto, using(crate::proofs::Passing::only_unit))]
    fn last_unit(self, s: Step) -> u64
        requires { Among (start_passes self.x self.y) s.n 1 step_count }
        ensures { (result ≡ last_unit self.x self.y s.n) × (result < step) }
    {
        let r = self.nearer(s, self.window(s), 2);
        self.nearer(s, r, 1)
    }

    // The largest angle of the first quadrant that passes: the step by the table alone, then the units into it.
    #[tactic(auto, using(crate::proofs::Passing::stages))]
    fn quadrant_angle(self) -> u64
        requires { 0 < self.x }
        ensures { (result ≡ quadrant_angle self.x self.y) × (result < Q) }
    {
        let n = self.last_step();
        STEP * (n as u64) + self.last_unit(Step::at(n))
    }
}

// The angle of the vector (x, y), reduced: by the signs of its components, a search in the first quadrant and whole quadrants.
#[tactic(auto, using(crate::proofs::Signs::branches))]
pub fn angle(x: i64, y: i64) -> u64
    requires { (nat_abs x ≤ 2 ^ 34) × (nat_abs y ≤ 2 ^ 34) }
    ensures { (result ≡ angle x y) × (result < turn) }
{
    let p = exact::magnitude(x);
    let q = exact::magnitude(y);
    let v = Vector { x: p, y: q };
    let turned = Vector { x: q, y: p };
    if x < 0 {
        if 0 < y {
            QUADRANT + turned.quadrant_angle()
        } else {
            2 * QUADRANT + v.quadrant_angle()
        }
    } else if y < 0 {
        3 * QUADRANT + turned.quadrant_angle()
    } else if 0 < x {
        v.quadrant_angle()
    } else if 0 < y {
        QUADRANT + turned.quadrant_angle()
    } else {
        0
    }
}
