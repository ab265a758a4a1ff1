// What is asked of an instant, fields 1 to 7 and 11 of the card, by an edition of the Sun's series: its time, the Sun's numbers, or with fields 8
// to 10 every step of a shot. Angles are in units of 0.0001″.
ghost use Rattle.std.specs.Prelude.{◌≡◌, ◌+◌, ◌*◌, ◌≤◌, ◌<◌, ◌^◌, nat_abs, length};
ghost use Rattle.exact.specs.Reduction.{turn};
ghost use Rattle.rotation.specs.Length.{squared_length, growth};
ghost use Rattle.rotation.specs.Sizes.{reach};
ghost use Rattle.arguments.specs.PrintedArguments.{arguments_of};
ghost use Rattle.frame.specs.FrameContract.{IsFrame};
ghost use Rattle.card.specs.Fields.{field_count};
ghost use Rattle.short_series.specs.Editions.{number_count};
ghost use Rattle.polaris.specs.Sizes.{ElementsSized, FrameSized};

use crate::{angles, output};
use calendar::{CivilTime, Epochs};
use epoch::Epoch;
use fieldbook::{Numbers, Options};
use frame::Frame;
use polaris::Elements;
use refusal::Refusal;
use rotation::Direction;
use site::{Position, Site};
use std::io::Stdout;

// An accepted instant: its epochs, the frame of the date, Greenwich sidereal time, the angle g of the centre terms alone, and the Sun's apparent
// longitude s.
#[derive(Clone, Copy)]
pub struct Quantities {
    pub epochs: Epochs,
    pub frame: Frame,
    pub sidereal: u64,
    pub centre: u64,
    pub longitude: u64,
    ghost frame_sized: { FrameSized frame },
    ghost sidereal_reduced: { sidereal < turn },
    ghost centre_reduced: { centre < turn },
    ghost longitude_reduced: { longitude < turn },
}

// D of a date.
pub fn date(out: Stdout, year: i64, month: i64, day: i64) {
    if !calendar::is_date(year, month, day) {
        return output::refused(out, Refusal::NoDate);
    }
    output::accepted(out);
    output::natural(out, calendar::day_count(year, month, day));
}

// The shot with plain numbers.
pub fn shot(out: Stdout, fields: &[i64], edition: i64)
    requires { field_count ≤ length fields.now }
{
    let query = fieldbook::query_with(fields, Options { edition });
    output::shot(out, fieldbook::shot(query));
}

// Answers what is asked of an instant, or why its numbers name none.
fn at<F: FnOnce(Epochs)>(out: Stdout, time: CivilTime, answer: F)
    requires { F.IsAlwaysCallable answer }
{
    match calendar::instant_of(time) {
        Ok(epochs) => answer(epochs),
        Err(refusal) => output::refused(out, refusal),
    }
}

// The two epochs of an instant.
pub fn time(out: Stdout, numbers: &[i64])
    requires { number_count ≤ length numbers.now }
{
    at(out, short_series::time_of(numbers), |epochs| {
        output::accepted(out);
        write_time(out, epochs);
    });
}

// What almanacs print of the Sun, by the default edition.
pub fn sun(out: Stdout, numbers: &[i64])
    requires { number_count ≤ length numbers.now }
{
    at(out, short_series::time_of(numbers), |epochs| {
        output::accepted(out);
        write_sun(out, &quantities_of(epochs, fieldbook::DEFAULTS.edition));
    });
}

// s by an edition.
pub fn longitude(out: Stdout, numbers: &[i64], edition: i64)
    requires { number_count ≤ length numbers.now }
{
    at(out, short_series::time_of(numbers), |epochs| {
        write_longitude(out, epochs, edition);
    });
}

// Every step of a shot with plain numbers.
pub fn steps(out: Stdout, fields: &[i64], edition: i64)
    requires { field_count ≤ length fields.now }
{
    let Numbers { time, site, body } = fieldbook::numbers_of(fields);
    at(out, time, |epochs| parts(out, epochs, site, body, edition));
}

fn quantities_of(epochs: Epochs, edition: i64) -> Quantities {
    let e = epochs.ephemeris;
    let arguments = arguments::arguments_of(e);
    let f = frame::frame_of(&arguments, e);
    Quantities {
        epochs,
        frame: f,
        sidereal: frame::sidereal_time(epochs.universal, f),
        centre: sun::centre_longitude(&arguments, e),
        longitude: longitude_of(edition, &arguments, e, f),
    }
}

fn longitude_of(edition: i64, arguments: &[i64; arguments::COUNT], e: Epoch, f: Frame) -> u64
    requires { (arguments.now ≡ arguments_of e) × IsFrame arguments.now e.q f }
    ensures { result < turn }
{
    sun::apparent_longitude(edition, arguments, e, f.dpsi, sun::ABERRATION)
}

// s, where the edition is one.
fn write_longitude(out: Stdout, epochs: Epochs, edition: i64) {
    if !exact::between(1, edition, 2) {
        return output::refused(out, Refusal::NoEdition);
    }
    let quantities = quantities_of(epochs, edition);
    output::accepted(out);
    output::natural(out, quantities.longitude);
}

// N and its q, then N with ΔT, its q and the arguments, those of the full edition last.
fn write_time(out: Stdout, epochs: Epochs) {
    let u = epochs.universal;
    let e = epochs.ephemeris;
    output::integers(out, &[u.n, u.q, e.n, e.q]);
    let arguments = arguments::arguments_of(e);
    output::integers(out, &arguments::full_arguments_of(&arguments, e));
}

// What almanacs print of the Sun: s, Δψ, Δε, the true obliquity, sidereal time, right ascension and declination.
fn write_sun(out: Stdout, quantities: &Quantities) {
    let f = quantities.frame;
    output::natural(out, quantities.longitude);
    output::integers(out, &[f.dpsi, difference(f.epsilon, f.epsilon0), f.epsilon]);
    output::natural(out, quantities.sidereal);
    write_equatorial(out, sun::direction(quantities.longitude, f.epsilon));
}

fn difference(a: i64, b: i64) -> i64
    requires { (nat_abs a < 2 ^ 40) × (nat_abs b < 2 ^ 40) }
{
    a - b
}

// Right ascension and declination of a direction.
fn write_equatorial(out: Stdout, d: Direction)
    requires { squared_length d ≤ reach }
{
    let m = exact::magnitude(d[0]);
    let n = exact::magnitude(d[1]);
    let h = exact::root(m * m + n * n) as i64;
    output::natural(out, vector_angle::angle(d[0], d[1]));
    write_short_way(out, vector_angle::angle(h, d[2]));
}

// A reduced angle, less a turn where that is nearer to 0: a declination is negative south of the equator.
fn write_short_way(out: Stdout, a: u64)
    requires { a < turn }
{
    if 2 * sine::QUADRANT < a {
        output::integer(out, a as i64 - exact::TURN);
    } else {
        output::natural(out, a);
    }
}

// Every step of a shot, in the order of tools/vectors.py. Kept: body and edition are numbers of a line, which are tested here.
fn parts(out: Stdout, epochs: Epochs, site: Site, body: i64, edition: i64) {
    let position = match site::position_of(site) {
        Ok(position) => position,
        Err(refusal) => return output::refused(out, refusal),
    };
    if !exact::between(1, body, 2) {
        return output::refused(out, Refusal::NoBody);
    }
    if !exact::between(1, edition, 2) {
        return output::refused(out, Refusal::NoEdition);
    }
    let quantities = quantities_of(epochs, edition);
    parts_from(out, &quantities, position, body == 1);
}

fn parts_from(out: Stdout, quantities: &Quantities, position: Position, is_sun: bool) {
    let d = direction_of(quantities, is_sun);
    let sight = horizon::sight(d, quantities.sidereal, position);
    output::sight_begin(out, sight);
    let epochs = quantities.epochs;
    write_time(out, epochs);
    write_frame(out, quantities);
    if is_sun {
        output::natural(out, quantities.longitude);
    } else {
        write_polaris(out, quantities);
    }
    angles::write_view(out, d, quantities.sidereal, position);
    output::sight_end(out, sight);
}

// Δψ, the mean obliquity, ε, sidereal time and g.
fn write_frame(out: Stdout, quantities: &Quantities) {
    let f = quantities.frame;
    output::integers(out, &[f.dpsi, f.epsilon0, f.epsilon]);
    output::natural(out, quantities.sidereal);
    output::natural(out, quantities.centre);
}

fn direction_of(quantities: &Quantities, is_sun: bool) -> Direction
    ensures { squared_length result + 2 * growth ≤ reach }
{
    let f = quantities.frame;
    if is_sun {
        sun::direction(quantities.longitude, f.epsilon)
    } else {
        let e = quantities.epochs.ephemeris;
        polaris::direction(e, f, quantities.centre)
    }
}

// Of Polaris p, right ascension, declination, ζ, z, θ, the catalogue's direction and that before aberration.
fn write_polaris(out: Stdout, quantities: &Quantities) {
    let e = quantities.epochs.ephemeris;
    let p = polaris::tropical_millionths(e);
    let k = polaris::elements_of(p);
    output::integers(out, &[p, k.alpha, k.delta, k.zeta, k.z, k.theta]);
    output::integers(out, &polaris::catalogue(k.alpha, k.delta));
    write_before_aberration(out, quantities, k);
}

fn write_before_aberration(out: Stdout, quantities: &Quantities, k: Elements)
    requires { ElementsSized k }
{
    let d = polaris::true_direction(k, quantities.frame);
    output::integers(out, &d);
}
