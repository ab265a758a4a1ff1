// Runs of sines and of angles of a vector, for bench/: how many instructions one takes is the difference of two
// runs. What a run answers depends on all that is found in it, so that the compiler can leave out nothing.
#![tactic(auto)]

ghost use Rattle.std.specs.Prelude.{◌≡◌, ◌≤◌, ◌<◌, nat_abs};
ghost use Rattle.exact.specs.Reduction.{turn};
ghost use Rattle.sine_table.specs.Table.{R};

const TURN: u64 = 4 * sine::QUADRANT;

// From an angle of a run to the next: some 34°, a prime, so that they come to lie all over the turn.
const STRIDE: u64 = 1_234_567_891;

// A sine without its sign.
fn size(sine: i64) -> u64
    requires { nat_abs sine ≤ R }
    ensures { result ≤ R }
{
    exact::magnitude(sine)
}

// What a run of a kind finds at the angle a: 1 its sine, 2 its sine and its cosine, 3 the angle of both, and any other nothing.
fn found(kind: u64, a: u64) -> u64
    requires { a < turn }
    ensures { result < turn }
{
    match kind {
        1 => size(sine::sin(a)),
        2 => size(sine::sin(a)) + size(sine::cos(a)),
        3 => vector_angle::angle(sine::cos(a), sine::sin(a)),
        _ => a,
    }
}

// A run: how many angles, and its kind. It answers the angle that comes after the last.
#[unsafe(no_mangle)]
pub extern "C" fn measured(kind: u64, count: u64) -> u64 {
    let mut a: u64 = 0;
    for i in 0..count {
        a = (a + STRIDE + found(kind, a)) % TURN;
    }
    a
}
