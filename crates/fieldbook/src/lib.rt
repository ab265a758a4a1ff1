// The shot: where the Sun or Polaris stands for eleven numbers, or for a card.
#![tactic(auto)]

ghost use Rattle.std.specs.Prelude.{◌≡◌, ◌+◌, ◌*◌, ◌<◌, ◌≤◌, length};
ghost use Rattle.exact.specs.Reduction.{turn};
ghost use Rattle.rotation.specs.Length.{squared_length, growth};
ghost use Rattle.rotation.specs.Sizes.{reach};
ghost use Rattle.card.specs.Fields.{field_count};
ghost use Rattle.fieldbook.specs.Shot.{numbers_of, options_of, query, query_of, shot_values, ShotReduced, view_at, shot, shot_from_card};
ghost use Rattle.fieldbook.specs.Parts.{sighted_shot, sun_shot, polaris_shot};
ghost use Rattle.fieldbook.specs.Astrometry.{IsAstrometry};
ghost use Rattle.fieldbook.specs.Bodies.{Decodes};

use calendar::{CivilTime, Epochs};
use card::Card;
use frame::Frame;
use refusal::Refusal;
use rotation::Direction;
use site::{Position, Site};

// The numbers of a shot: fields 1 to 7 and 11 of the card, 8 and 9, and 10.
#[derive(Clone, Copy, Debug, PartialEq, Eq)]
pub struct Numbers {
    pub time: CivilTime,
    pub site: Site,
    pub body: i64,
}

// How a shot is worked, any numbers: the edition of the Sun's series, 1 short or 2 full. Laid out as in C.
#[repr(C)]
#[derive(Clone, Copy, Debug, PartialEq, Eq)]
pub struct Options {
    pub edition: i64,
}

// The options of a caller who names none.
pub const DEFAULTS: Options = Options { edition: 1 };

// How many options there are.
pub const OPTIONS: usize = 1;

// What a shot is asked with.
#[derive(Clone, Copy, Debug, PartialEq, Eq)]
pub struct Query {
    pub numbers: Numbers,
    pub options: Options,
}

// An answered shot, in units of 0.0001 second of arc: the azimuth from north clockwise, the zenith distance, the hour angle, and the
// Sun's apparent longitude s, 0 for Polaris.
#[derive(Clone, Copy, Debug, PartialEq, Eq)]
pub struct ShotAngles {
    pub azimuth: u64,
    pub zenith_distance: u64,
    pub hour_angle: u64,
    pub longitude: u64,
}

// A body that a shot knows.
#[derive(Clone, Copy)]
enum Body {
    Sun,
    Polaris,
}

// By the number in field 10, or refusal 6.
impl TryFrom<i64> for Body {
    type Error = Refusal;

    ghost try_from_gives = { Decodes };

    fn try_from(number: i64) -> Result<Body, Refusal> {
        match number {
            1 => Ok(Body::Sun),
            2 => Ok(Body::Polaris),
            _ => Err(Refusal::NoBody),
        }
    }
}

// The numbers of the fields, in the order of the card, which stand first in the list.
pub fn numbers_of(fields: &[i64]) -> Numbers
    requires { field_count ≤ length fields.now }
    ensures { result ≡ numbers_of fields.now }
{
    Numbers {
        time: CivilTime {
            year: fields[0],
            month: fields[1],
            day: fields[2],
            hour: fields[3],
            minute: fields[4],
            millisecond: fields[5],
            dut1: fields[6],
            delta_t: fields[10],
        },
        site: Site {
            latitude: fields[7],
            longitude: fields[8],
        },
        body: fields[9],
    }
}

// The options of a list, in the order above; those that it leaves out are the defaults.
pub fn options_of(list: &[i64]) -> Options
    ensures { result ≡ options_of list.now }
{
    match list {
        [edition, ..] => Options { edition: *edition },
        [] => DEFAULTS,
    }
}

// What the numbers of the fields ask with options.
pub fn query_with(fields: &[i64], options: Options) -> Query
    requires { field_count ≤ length fields.now }
    ensures { result ≡ query (numbers_of fields.now) options }
{
    Query {
        numbers: numbers_of(fields),
        options,
    }
}

// What a list asks: the numbers of the fields stand first in it, and the options from a place on to its end.
pub fn query_of(list: &[i64], options_at: usize) -> Query
    requires { (field_count ≤ length list.now) × (options_at ≤ length list.now) }
    ensures { result ≡ query_of list.now options_at }
{
    query_with(list, options_of(&list[options_at..]))
}

// What both bodies share at an accepted instant: its epochs, the arguments, the frame of the date and Greenwich sidereal time.
#[derive(Clone, Copy)]
struct Astrometry {
    epochs: Epochs,
    arguments: [i64; arguments::COUNT],
    frame: Frame,
    sidereal: u64,
    ghost known: { IsAstrometry epochs arguments frame sidereal },
}

impl Astrometry {
    // The astrometry of two epochs: all by ephemeris time, and sidereal time by universal time too.
    fn of(epochs: Epochs) -> Astrometry
        ensures { result.epochs ≡ epochs }
    {
        let e = epochs.ephemeris;
        let arguments = arguments::arguments_of(e);
        let frame = frame::frame_of(&arguments, e);
        let sidereal = frame::sidereal_time(epochs.universal, frame);
        Astrometry {
            epochs,
            arguments,
            frame,
            sidereal,
        }
    }

    // A body in direction d from a position, with the longitude s that its answer gives.
    fn sighted_shot(&self, d: Direction, s: u64, position: Position) -> Result<ShotAngles, Refusal>
        requires { (squared_length d + 2 * growth ≤ reach) × (s < turn) }
        ensures { (shot_values result ≡ sighted_shot (view_at self.now.epochs position d) s) × ShotReduced (shot_values result) }
    {
        let sight = horizon::sight(d, self.sidereal, position)?;
        Ok(ShotAngles {
            azimuth: sight.azimuth,
            zenith_distance: sight.zenith_distance,
            hour_angle: sight.hour_angle,
            longitude: s,
        })
    }

    // The Sun from a position, by an edition of its series.
    fn sun_shot(&self, edition: i64, position: Position) -> Result<ShotAngles, Refusal>
        ensures { (shot_values result ≡ sun_shot edition self.now.epochs position) × ShotReduced (shot_values result) }
    {
        let e = self.epochs.ephemeris;
        let f = self.frame;
        let s = sun::apparent_longitude(edition, &self.arguments, e, f.dpsi, sun::ABERRATION);
        let d = sun::direction(s, f.epsilon);
        self.sighted_shot(d, s, position)
    }

    // Polaris from a position.
    fn polaris_shot(&self, position: Position) -> Result<ShotAngles, Refusal>
        ensures { (shot_values result ≡ polaris_shot self.now.epochs position) × ShotReduced (shot_values result) }
    {
        let e = self.epochs.ephemeris;
        let g = sun::centre_longitude(&self.arguments, e);
        let d = polaris::direction(e, self.frame, g);
        self.sighted_shot(d, 0, position)
    }
}

// The shot with plain numbers, any numbers and options.
pub fn shot(query: Query) -> Result<ShotAngles, Refusal>
    ensures { (shot_values result ≡ shot query) × ShotReduced (shot_values result) }
{
    let Query { numbers, options } = query;
    let epochs = calendar::instant_of(numbers.time)?;
    let position = site::position_of(numbers.site)?;
    let body = Body::try_from(numbers.body)?;
    if !exact::between(1, options.edition, 2) {
        return Err(Refusal::NoEdition);
    }
    let astrometry = Astrometry::of(epochs);
    match body {
        Body::Sun => astrometry.sun_shot(options.edition, position),
        Body::Polaris => astrometry.polaris_shot(position),
    }
}

// The shot from a card, with any options: refusal 1 where a field is not confirmed, else the shot with its confirmed numbers.
pub fn shot_from_card(card: &Card, options: Options) -> Result<ShotAngles, Refusal>
    ensures { (shot_values result ≡ shot_from_card card.now options) × ShotReduced (shot_values result) }
{
    let fields = card.confirmed_numbers()?;
    shot(query_with(&fields, options))
}
