// The shot: where a body stands; and many shots in one call. Options are a struct that is passed by value, last.
ghost use Rattle.std.specs.Prelude.{◌≡◌, ◌++◌, ◌*◌, ◌≤◌, length, drop};
ghost use Rattle.card.specs.Fields.{field_count};
ghost use Rattle.fieldbook.specs.Shot.{numbers_of, query, shot_values, refused, ShotReduced, shot};
ghost use Rattle.capi.specs.Interface.{numbers, shot_answer_values};
ghost use Rattle.capi.specs.Rows.{word_count, shot_words, row_count, answers_to};

use card::FIELDS;
use fieldbook::{Options, ShotAngles};
use refusal::Refusal;

// How many words the answer to a row of many shots has.
const WORDS: usize = 5;

// What a shot answers, laid out as in C: the refusal's number, 0 for none, and azimuth, zenith distance, hour angle and s, in units of
// 0.0001 second of arc. A refusal's angles are 0.
#[repr(C)]
#[derive(Clone, Copy, Debug, PartialEq, Eq)]
pub struct ShotAnswer {
    pub refusal: u64,
    pub azimuth: u64,
    pub zenith_distance: u64,
    pub hour_angle: u64,
    pub longitude: u64,
}

// A refused shot, by its number.
pub fn refused(number: u64) -> ShotAnswer
    ensures { shot_answer_values result ≡ refused number }
{
    ShotAnswer {
        refusal: number,
        azimuth: 0,
        zenith_distance: 0,
        hour_angle: 0,
        longitude: 0,
    }
}

// The book's answer in those words.
pub fn answer_of(shot: Result<ShotAngles, Refusal>) -> ShotAnswer
    ensures { shot_answer_values result ≡ shot_values shot }
{
    match shot {
        Ok(a) => ShotAnswer {
            refusal: 0,
            azimuth: a.azimuth,
            zenith_distance: a.zenith_distance,
            hour_angle: a.hour_angle,
            longitude: a.longitude,
        },
        Err(refusal) => refused(u64::from(refusal)),
    }
}

// The shot with eleven plain numbers and options.
#[unsafe(no_mangle)]
pub extern "C" fn fieldbook_shot(
    year: i64,
    month: i64,
    day: i64,
    hour: i64,
    minute: i64,
    millisecond: i64,
    dut1: i64,
    latitude: i64,
    longitude: i64,
    body: i64,
    delta_t: i64,
    options: Options,
) -> ShotAnswer
    ensures { (shot_answer_values result ≡ shot (query (numbers year month day hour minute millisecond dut1 latitude longitude body delta_t) options)) × ShotReduced (shot_answer_values result) }
{
    let fields = [
        year,
        month,
        day,
        hour,
        minute,
        millisecond,
        dut1,
        latitude,
        longitude,
        body,
        delta_t,
    ];
    answer_of(fieldbook::shot(fieldbook::query_with(&fields, options)))
}

// Writes the words of an answer at the front of a list.
fn put(answers: &mut [u64], a: ShotAnswer)
    requires { word_count ≤ length answers.old }
    ensures { answers.new ≡ shot_words (shot_answer_values a) ++ drop word_count answers.old }
{
    answers[..WORDS].copy_from_slice(&[
        a.refusal,
        a.azimuth,
        a.zenith_distance,
        a.hour_angle,
        a.longitude,
    ]);
}

// The shot of the row at the front of a list, its answer at the front of another.
fn answer_row(rows: &[i64], answers: &mut [u64], options: Options)
    requires { (field_count ≤ length rows.now) × (word_count ≤ length answers.old) }
    ensures { answers.new ≡ shot_words (shot (query (numbers_of rows.now) options)) ++ drop word_count answers.old }
{
    let query = fieldbook::query_with(rows, options);
    put(answers, answer_of(fieldbook::shot(query)));
}

// For how many rows there are numbers, and room for their answers.
fn row_count(rows: &[i64], answers: &[u64]) -> usize
    ensures { result ≡ row_count rows.now answers.now }
{
    (rows.len() / FIELDS).min(answers.len() / WORDS)
}

// The shots of rows of eleven numbers, the answers in rows of five words, with the same options for all of them. As many rows
// are answered as there are numbers and room for, and this count is returned; words that no answer takes stay as they
// were.
#[unsafe(no_mangle)]
pub extern "C" fn fieldbook_shots(rows: &[i64], answers: &mut [u64], options: Options) -> u64
    ensures value { result ≡ row_count rows.now answers.old }
    ensures answers_after { answers.new ≡ answers_to options result rows.now ++ drop (word_count * result) answers.old }
{
    let count = row_count(rows, answers);
    // Kept: rows by their index, not by `zip` with `chunks_exact_mut`: nothing is known afterwards of what a loop wrote through such chunks.
    for i in 0..count {
        answer_row(&rows[FIELDS * i..], &mut answers[WORDS * i..], options);
    }
    count as u64
}
