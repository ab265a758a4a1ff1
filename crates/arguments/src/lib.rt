// The time arguments: angles that grow nearly evenly with time, each by three coefficients.
#![tactic(auto)]

mod tables;

ghost use Rattle.std.specs.Prelude.{◌≡◌, map, ◌<◌, length};
ghost use Rattle.exact.specs.Reduction.{turn};
ghost use Rattle.arguments.specs.Argument.{argument, arguments_by};
ghost use Rattle.arguments.specs.PrintedArguments.{further_rows, arguments_of, full_arguments_of};
ghost use Rattle.arguments.specs.Rows.{coefficients};
ghost use Rattle.arguments.specs.Sizes.{RowSized, RowsSized, IsArguments, IsFullArguments};

use epoch::Epoch;
use secular::Polynomial;
pub use tables::{
    COUNT, D, EPSILON0, FULL_COUNT, JUPITER, L, LM, MARS, MM, MS, MV, OMEGA, P1, P2, P3, P4, SATURN,
};

// The angle of a stored row at an epoch.
pub fn argument(row: [i64; 4], e: Epoch) -> u64
    requires { RowSized row }
    ensures { (result ≡ argument (coefficients row) e) × (result < turn) }
{
    let [c0, whole, part, c2] = row;
    let rest = Polynomial {
        c0,
        c1: 0,
        c2,
        divisor: secular::SQUARE,
    };
    exact::reduced_bounded(exact::per_century(whole, part, e.n) + secular::value(rest, e.q))
}

// The angles of any table of rows, one for each.
fn fill(angles: &mut [i64], rows: &[[i64; 4]], e: Epoch)
    requires { (length angles.old ≡ length rows.now) × RowsSized rows.now }
    ensures { angles.new ≡ arguments_by (map coefficients rows.now) e }
{
    for (i, row) in rows.iter().enumerate() {
        angles[i] = argument(*row, e) as i64;
    }
}

// The arguments of an epoch, in the order of the table.
pub fn arguments_of(e: Epoch) -> [i64; COUNT]
    ensures { (result ≡ arguments_of e) × IsArguments result }
{
    let mut angles = [0i64; COUNT];
    fill(&mut angles, &tables::ROWS, e);
    angles
}

// The arguments of an epoch, and behind them the four angles that the full edition of the Sun's series takes besides.
pub fn full_arguments_of(arguments: &[i64; COUNT], e: Epoch) -> [i64; FULL_COUNT]
    requires { arguments.now ≡ arguments_of e }
    ensures { (result ≡ full_arguments_of e) × IsFullArguments result }
{
    let mut angles = [0i64; FULL_COUNT];
    angles[..COUNT].copy_from_slice(arguments);
    fill(&mut angles[COUNT..], &tables::FURTHER_ROWS, e);
    angles
}
