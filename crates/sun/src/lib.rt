// The Sun by Newcomb's series: the equation of the centre, the apparent longitude and the direction; what its short edition leaves out.
#![tactic(auto)]

mod tables;

ghost use Rattle.std.specs.Prelude.{◌≡◌, ◌+◌, ◌*◌, ◌≤◌, ◌<◌, ◌^◌, ℤ, pos, nat_abs, ◌+ℤ◌, ◌-ℤ◌};
ghost use Rattle.exact.specs.Reduction.{turn, reduced};
ghost use Rattle.secular.specs.Sizes.{most_millionths};
ghost use Rattle.sine_table.specs.Table.{R};
ghost use Rattle.sine.specs.Sine.{Sin};
ghost use Rattle.sine.specs.SineContract.{circle_most};
ghost use Rattle.rotation.specs.Length.{squared_length, growth};
ghost use Rattle.epoch.specs.Sizes.{InSpan};
ghost use Rattle.arguments.specs.PrintedArguments.{arguments_of, full_arguments_of};
ghost use Rattle.arguments.specs.Sizes.{IsArguments};
ghost use Rattle.series.specs.Sum.{total};
ghost use Rattle.frame.specs.Nutation as Nutation;
ghost use Rattle.sun.specs.Series.{centre, periodic, short_terms, further, full_terms};
ghost use Rattle.sun.specs.Longitude.{mean_longitude, first_sum, equation_of_centre, centre_longitude, IsLongitude};
ghost use Rattle.sun.specs.ShortCost.{short_cost};
ghost use Rattle.sun.specs.Direction.{direction};

use epoch::Epoch;
use rotation::Direction;
pub use tables::ABERRATION;

// The apparent longitude by either edition, reduced, in units.
#[derive(Clone, Copy, Debug, PartialEq, Eq)]
pub struct Longitudes {
    pub short: u64,
    pub full: u64,
}

// The exact sum of the centre terms at q, before it is divided by R.
fn centre_sum(arguments: &[i64], q: i64) -> i64
    requires { IsArguments arguments.now × (nat_abs q ≤ most_millionths) }
    ensures { (result ≡ total Sin arguments.now q centre) × (nat_abs result ≤ R * 2 ^ 27) }
{
    tables::CENTRE.sum(arguments, q)
}

// The equation of the centre at an epoch, from its arguments, in units.
pub fn equation_of_centre(arguments: &[i64], e: Epoch) -> i64
    requires { IsArguments arguments.now }
    ensures { (result ≡ equation_of_centre arguments.now e.q) × (nat_abs result ≤ 2 ^ 27) }
{
    series::rounded(centre_sum(arguments, e.q))
}

// The mean longitude with the equation of the centre alone, reduced: for the aberration of a star.
pub fn centre_longitude(arguments: &[i64], e: Epoch) -> u64
    requires { IsArguments arguments.now }
    ensures { (result ≡ centre_longitude arguments.now e.q) × (result < turn) }
{
    exact::reduced_bounded(arguments[arguments::L] + equation_of_centre(arguments, e))
}

// The exact sum of the long period terms of the short edition, of the Moon's and of those of Venus.
fn periodic_sum(arguments: &[i64]) -> i64
    requires { IsArguments arguments.now }
    ensures { ((q : ℤ) → result ≡ total Sin arguments.now q periodic) × (nat_abs result ≤ R * 2 ^ 27) }
{
    tables::PERIODIC.steady_sum(arguments)
}

// The exact sum of the terms of the short edition at an epoch.
fn short_sum(arguments: &[i64; arguments::COUNT], e: Epoch) -> i64
    requires { arguments.now ≡ arguments_of e }
    ensures { (result ≡ total Sin (arguments_of e) e.q short_terms) × (nat_abs result ≤ R * 2 ^ 28) × InSpan e }
{
    centre_sum(arguments, e.q) + periodic_sum(arguments)
}

// The exact sum of what the full edition adds to the short one at an epoch, from the arguments of both.
fn further_sum(arguments: &[i64; arguments::COUNT], e: Epoch) -> i64
    requires { arguments.now ≡ arguments_of e }
    ensures { (result ≡ total Sin (full_arguments_of e) e.q further) × (nat_abs result ≤ R * 2 ^ 27) }
{
    let all = arguments::full_arguments_of(arguments, e);
    tables::FURTHER.sum(&all, e.q)
}

// The exact sum of the terms of the full edition, from that of the short one.
fn full_sum(short: i64, arguments: &[i64; arguments::COUNT], e: Epoch) -> i64
    requires { (arguments.now ≡ arguments_of e) × ((short ≡ total Sin (arguments_of e) e.q short_terms) × (nat_abs short ≤ R * 2 ^ 28)) }
    ensures { (result ≡ total Sin (full_arguments_of e) e.q full_terms) × (nat_abs result ≤ R * 2 ^ 29) }
{
    short + further_sum(arguments, e)
}

// What the terms of an edition add to the mean longitude at an epoch, in units: all of them are rounded together.
// Kept: the edition is a number and no enum, since the function answers for every number. Kept: arguments and epoch are two parameters, here and
// in `frame`, since some functions take any reduced arguments with any epoch, which a struct of an epoch's own arguments would not allow.
fn first_sum(edition: i64, arguments: &[i64; arguments::COUNT], e: Epoch) -> i64
    requires { arguments.now ≡ arguments_of e }
    ensures { (result ≡ first_sum edition e) × (nat_abs result ≤ 2 ^ 29) × InSpan e }
{
    let short = short_sum(arguments, e);
    if edition == 1 {
        series::rounded(short)
    } else {
        series::rounded(full_sum(short, arguments, e))
    }
}

// The longitude of a first sum, reduced, from the arguments of the epoch, Δψ and the aberration, in units.
fn longitude_by(
    first_sum: i64,
    arguments: &[i64; arguments::COUNT],
    dpsi: i64,
    aberration: i64,
) -> u64
    requires { IsArguments arguments.now × (nat_abs first_sum ≤ 2 ^ 29) × (nat_abs dpsi ≤ 2 ^ 20) × (nat_abs aberration ≤ 2 ^ 20) }
    ensures { (result ≡ reduced (mean_longitude arguments.now +ℤ first_sum +ℤ dpsi -ℤ aberration)) × (result < turn) }
{
    exact::reduced_bounded(arguments[arguments::L] + first_sum + dpsi - aberration)
}

// The Sun's apparent longitude s by an edition, 1 short or else full, at an epoch, reduced, from its arguments, Δψ and the aberration, in
// units.
pub fn apparent_longitude(
    edition: i64,
    arguments: &[i64; arguments::COUNT],
    e: Epoch,
    dpsi: i64,
    aberration: i64,
) -> u64
    requires { (arguments.now ≡ arguments_of e) × ((dpsi ≡ Nutation.dpsi arguments.now e.q) × (nat_abs dpsi ≤ 2 ^ 20)) × (nat_abs aberration ≤ 2 ^ 20) }
    ensures { IsLongitude edition aberration e result }
{
    longitude_by(
        first_sum(edition, arguments, e),
        arguments,
        dpsi,
        aberration,
    )
}

// The same by both editions, the terms that they share summed once.
pub fn both_longitudes(
    arguments: &[i64; arguments::COUNT],
    e: Epoch,
    dpsi: i64,
    aberration: i64,
) -> Longitudes
    requires { (arguments.now ≡ arguments_of e) × ((dpsi ≡ Nutation.dpsi arguments.now e.q) × (nat_abs dpsi ≤ 2 ^ 20)) × (nat_abs aberration ≤ 2 ^ 20) }
    ensures { IsLongitude (pos 1) aberration e result.short × IsLongitude (pos 2) aberration e result.full }
{
    let short = short_sum(arguments, e);
    let full = full_sum(short, arguments, e);
    Longitudes {
        short: longitude_by(series::rounded(short), arguments, dpsi, aberration),
        full: longitude_by(series::rounded(full), arguments, dpsi, aberration),
    }
}

// The amplitudes at q that the short edition leaves out, without their signs, in units: the two longitudes are no further apart.
pub fn short_cost(q: i64) -> u64
    requires { nat_abs q ≤ most_millionths }
    ensures { result ≡ short_cost q }
{
    tables::DROPPED_STEADY + exact::magnitude(secular::value(tables::DROPPED_VARYING, q))
}

// The Sun's direction in the frame of the equator: (Cos s, Sin s, 0) rotated by R1(−ε), where ε is
// the true obliquity.
pub fn direction(s: u64, epsilon: i64) -> Direction
    requires { (s < turn) × (nat_abs epsilon < 2 ^ 40) }
    ensures { (result ≡ direction s epsilon) × (squared_length result ≤ circle_most + growth) }
{
    let d = [sine::cos(s), sine::sin(s), 0];
    rotation::rotated(rotation::rotation1(-epsilon), d)
}
