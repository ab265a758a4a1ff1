// Both editions of the Sun's series at an instant, for teachers: what the short one costs.
ghost use Rattle.std.specs.Prelude.{◌≡◌};
ghost use Rattle.short_series.specs.Editions.{editions};
ghost use Rattle.capi.specs.Interface.{time, editions_answer_values};

use calendar::CivilTime;

// What an instant is answered with, laid out as in C: the refusal's number, 0 for none, and in units of 0.0001 second of arc the Sun's
// apparent longitude by the short edition and by the full one, how far they are apart the short way round, and what bounds that. A
// refusal's are 0.
#[repr(C)]
#[derive(Clone, Copy, Debug, PartialEq, Eq)]
pub struct EditionsAnswer {
    pub refusal: u64,
    pub short_edition: u64,
    pub full_edition: u64,
    pub apart: u64,
    pub bound: u64,
}

// Both editions at the instant that eight plain numbers name: fields 1 to 7 and 11 of the card.
#[unsafe(no_mangle)]
pub extern "C" fn fieldbook_editions(
    year: i64,
    month: i64,
    day: i64,
    hour: i64,
    minute: i64,
    millisecond: i64,
    dut1: i64,
    delta_t: i64,
) -> EditionsAnswer
    ensures { editions_answer_values result ≡ editions (time year month day hour minute millisecond dut1 delta_t) }
{
    let time = CivilTime {
        year,
        month,
        day,
        hour,
        minute,
        millisecond,
        dut1,
        delta_t,
    };
    match short_series::editions(time) {
        Ok(c) => EditionsAnswer {
            refusal: 0,
            short_edition: c.short,
            full_edition: c.full,
            apart: c.apart,
            bound: c.bound,
        },
        Err(refusal) => EditionsAnswer {
            refusal: u64::from(refusal),
            short_edition: 0,
            full_edition: 0,
            apart: 0,
            bound: 0,
        },
    }
}
