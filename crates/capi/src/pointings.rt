// The pointing: the azimuth of a mark.
ghost use Rattle.std.specs.Prelude.{◌≡◌};
ghost use Rattle.fieldbook.specs.Shot.{query};
ghost use Rattle.pointing.specs.Pointing.{MarkReduced, pointing};
ghost use Rattle.capi.specs.Interface.{numbers, pointing_answer_values};

use fieldbook::Options;

// What a pointing answers, laid out as in C: the refusal's number, 0 for none, and the mark's azimuth, in units of 0.0001 second of arc,
// 0 with a refusal.
#[repr(C)]
#[derive(Clone, Copy, Debug, PartialEq, Eq)]
pub struct PointingAnswer {
    pub refusal: u64,
    pub mark: u64,
}

// The pointing with the eleven plain numbers of a shot and its options, and the horizontal angle, any number, clockwise from the mark to
// the body.
#[unsafe(no_mangle)]
pub extern "C" fn fieldbook_pointing(
    year: i64,
    month: i64,
    day: i64,
    hour: i64,
    minute: i64,
    millisecond: i64,
    dut1: i64,
    latitude: i64,
    longitude: i64,
    body: i64,
    delta_t: i64,
    angle: i64,
    options: Options,
) -> PointingAnswer
    ensures { (pointing_answer_values result ≡ pointing (query (numbers year month day hour minute millisecond dut1 latitude longitude body delta_t) options) angle) × MarkReduced (pointing_answer_values result) }
{
    let fields = [
        year,
        month,
        day,
        hour,
        minute,
        millisecond,
        dut1,
        latitude,
        longitude,
        body,
        delta_t,
    ];
    match pointing::pointing(fieldbook::query_with(&fields, options), angle) {
        Ok(mark) => PointingAnswer { refusal: 0, mark },
        Err(refusal) => PointingAnswer {
            refusal: u64::from(refusal),
            mark: 0,
        },
    }
}
