// What the short edition of the Sun's series costs, for teachers: the Sun's apparent longitude at an instant by both editions, and how far
// they can be apart.
#![tactic(auto)]

ghost use Rattle.std.specs.Prelude.{◌≡◌, ◌≤◌, length};
ghost use Rattle.short_series.specs.Editions.{number_count, time_of, comparison_values, compared_at, editions_values, editions};

use calendar::CivilTime;
use epoch::Epoch;
use refusal::Refusal;

// How many numbers an instant has: fields 1 to 7 and 11 of the card.
pub const NUMBERS: usize = 8;

// An instant by both editions, in units of 0.0001 second of arc: the apparent longitude by the short one and by the full one, how far these
// are apart the short way round, and what bounds that, the amplitudes that the short one leaves out.
#[derive(Clone, Copy, Debug, PartialEq, Eq)]
pub struct Comparison {
    pub short: u64,
    pub full: u64,
    pub apart: u64,
    pub bound: u64,
}

// The instant of these numbers, which stand first in the list.
pub fn time_of(list: &[i64]) -> CivilTime
    requires { number_count ≤ length list.now }
    ensures { result ≡ time_of list.now }
{
    CivilTime {
        year: list[0],
        month: list[1],
        day: list[2],
        hour: list[3],
        minute: list[4],
        millisecond: list[5],
        dut1: list[6],
        delta_t: list[7],
    }
}

// Both editions at an epoch of ephemeris time.
fn compared_at(e: Epoch) -> Comparison
    ensures { comparison_values result ≡ compared_at e }
{
    let arguments = arguments::arguments_of(e);
    let dpsi = frame::dpsi(&arguments, e);
    let s = sun::both_longitudes(&arguments, e, dpsi, sun::ABERRATION);
    Comparison {
        short: s.short,
        full: s.full,
        apart: exact::short_way(s.short, s.full),
        bound: sun::short_cost(e.q),
    }
}

// The two editions at an instant of any eight numbers, or why they name none.
pub fn editions(time: CivilTime) -> Result<Comparison, Refusal>
    ensures { editions_values result ≡ editions time }
{
    let epochs = calendar::instant_of(time)?;
    Ok(compared_at(epochs.ephemeris))
}
