// Series: sums of amplitudes times sines, for any list of terms.
//
// A term whose amplitude is steady is a row of five numbers: amplitude and phase in units, and the multiples of three arguments. Rows
// that share their arguments are a group. A term whose amplitude varies is a row of six: c0, c1, c2 and the phase in units, and the
// multiple and the index of its one argument. A cosine is a term whose phase is a quadrant more.
#![tactic(auto)]

ghost use Rattle.std.specs.Prelude.{◌≡◌, ℕ, ◌*◌, ◌≤◌, ◌<◌, ◌^◌, ℤ, nat_abs, ◌*ℤ◌, length};
ghost use Rattle.exact.specs.Division.{nearest_div};
ghost use Rattle.exact.specs.Reduction.{turn, reduced};
ghost use Rattle.exact.specs.Nth.{nth};
ghost use Rattle.exact.specs.Sizes.{AllReduced};
ghost use Rattle.secular.specs.Sizes.{most_millionths};
ghost use Rattle.sine_table.specs.Table.{R};
ghost use Rattle.sine.specs.Sine.{Sin};
ghost use Rattle.series.specs.Term.{value};
ghost use Rattle.series.specs.Sum.{total, table_sum, weights};
ghost use Rattle.series.specs.Rows.{steady_angle, group_terms, steady_terms, varying_term, varying_terms, terms};
ghost use Rattle.series.specs.Sizes.{heaviest, AtMost, steady_bounds, GroupReady, SteadyReady, VaryingRow, VaryingReady};

use secular::Polynomial;

// Rows that share their arguments: the indices of these, and of each row the amplitude, the phase and three multiples.
#[derive(Clone, Copy)]
pub struct Group<'a> {
    pub arguments: [usize; 3],
    pub rows: &'a [[i64; 5]],
}

// The rows of a series: those of the terms whose amplitudes vary, of each c0, c1, c2, the phase, and the multiple and the index of its
// argument; and the others in groups.
#[derive(Clone, Copy)]
pub struct Series<'a> {
    pub varying: &'a [[i64; 6]],
    pub groups: &'a [Group<'a>],
}

// An amplitude times the sine of an angle that need not be reduced.
fn product(amplitude: i64, angle: i64) -> i64
    requires { (nat_abs amplitude ≤ 2 ^ 29) × (nat_abs angle ≤ 2 ^ 61) }
    ensures { result ≡ amplitude *ℤ Sin (reduced angle) }
{
    amplitude * sine::sin(exact::reduced_bounded(angle))
}

// The product of a row whose arguments are a, b, c.
fn steady_product(row: [i64; 5], a: i64, b: i64, c: i64) -> i64
    requires { AtMost steady_bounds row × (nat_abs a < turn) × (nat_abs b < turn) × (nat_abs c < turn) }
    ensures { result ≡ nth row 0 *ℤ Sin (reduced (steady_angle row a b c)) }
{
    let [amplitude, phase, x, y, z] = row;
    product(amplitude, phase + x * a + y * b + z * c)
}

// The product of a row whose amplitude varies.
fn varying_product(row: [i64; 6], arguments: &[i64], q: i64) -> i64
    requires { AllReduced arguments.now × (nat_abs q ≤ most_millionths) × VaryingRow (length arguments.now) row }
    ensures { result ≡ value Sin arguments.now q (varying_term row) }
{
    let [c0, c1, c2, phase, times, index] = row;
    let amplitude = Polynomial {
        c0,
        c1,
        c2,
        divisor: secular::SQUARE,
    };
    product(
        secular::value(amplitude, q),
        phase + times * arguments[index as usize],
    )
}

// A sum in units: one division by R, to nearest.
pub fn rounded(sum: i64) -> i64
    requires { nat_abs sum ≤ R * heaviest }
    ensures { (result ≡ nearest_div sum R) × ((k : ℕ) → nat_abs sum ≤ R * k → nat_abs result ≤ k) }
{
    exact::nearest_div(sum, sine::RADIUS)
}

impl Group<'_> {
    // The sum of the products of its rows.
    fn sum(&self, arguments: &[i64]) -> i64
        requires { GroupReady self.now arguments.now }
        ensures { (q : ℤ) → result ≡ total Sin arguments.now q (group_terms self.now) }
    {
        let [i, j, k] = self.arguments;
        let a = arguments[i];
        let b = arguments[j];
        let c = arguments[k];
        let mut sum: i64 = 0;
        for row in self.rows {
            sum += steady_product(*row, a, b, c);
        }
        sum
    }
}

impl Series<'_> {
    // The exact sum of the terms whose amplitudes are steady, the same at every q.
    pub fn steady_sum(&self, arguments: &[i64]) -> i64
        requires { SteadyReady self.now.groups.now arguments.now }
        ensures { ((q : ℤ) → result ≡ total Sin arguments.now q (steady_terms self.now.groups.now)) × (nat_abs result ≤ R * weights (steady_terms self.now.groups.now)) }
    {
        let mut sum: i64 = 0;
        for group in self.groups {
            sum += group.sum(arguments);
        }
        sum
    }

    // The exact sum of the terms whose amplitudes vary, at q.
    fn varying_sum(&self, arguments: &[i64], q: i64) -> i64
        requires { VaryingReady self.now.varying.now arguments.now q }
        ensures { (result ≡ total Sin arguments.now q (varying_terms self.now.varying.now)) × (nat_abs result ≤ R * weights (varying_terms self.now.varying.now)) }
    {
        let mut sum: i64 = 0;
        for row in self.varying {
            sum += varying_product(*row, arguments, q);
        }
        sum
    }

    // The exact sum of all its terms at q.
    pub fn sum(&self, arguments: &[i64], q: i64) -> i64
        requires { VaryingReady self.now.varying.now arguments.now q × SteadyReady self.now.groups.now arguments.now }
        ensures { (result ≡ total Sin arguments.now q (terms self.now)) × (nat_abs result ≤ R * weights (terms self.now)) }
    {
        self.varying_sum(arguments, q) + self.steady_sum(arguments)
    }

    // The sum of all its terms at q, in units.
    pub fn rounded_sum(&self, arguments: &[i64], q: i64) -> i64
        requires { VaryingReady self.now.varying.now arguments.now q × SteadyReady self.now.groups.now arguments.now × (weights (terms self.now) ≤ heaviest) }
        ensures { (result ≡ table_sum arguments.now q (terms self.now)) × (nat_abs result ≤ weights (terms self.now)) }
    {
        rounded(self.sum(arguments, q))
    }
}
