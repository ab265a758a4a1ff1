// Answers the outside vectors: a line of standard input says by its first word what it asks, and its answer is a line of standard output. Each
// answer begins with the refusal's number, 0 where there is none; a line that is not of its form is answered 14. What is read and written is
// compared by a run, not proved; proved is that each call is made as its contract asks, and that the program ends.
#![tactic(auto)]

mod angles;
mod calls;
mod instant;
mod lists;
mod output;
mod words;

ghost use Rattle.std.specs.Prelude.{◌≤◌, length};

use card::Card;
use site::Site;
use std::io::{Read, Stdin, Stdout};
use words::Word;

// The bytes of the buffer that the whole of standard input is read into.
const ROOM: usize = 262_144;

// The most digits of a number.
const DIGITS: usize = 18;

// Input that fills the buffer may not have come whole, and is answered one line 14 more, so that none is lost unseen.
fn main(rt: HostRuntime) {
    let out = rt.stdout();
    let mut input = [0u8; ROOM];
    let n = read_full(rt.stdin(), &mut input);
    answer_all(out, &input[..n]);
    if n == ROOM {
        output::malformed(out);
    }
}

// Reads until the buffer is full; how many bytes came, fewer where the input ends before or cannot be read.
fn read_full(mut from: Stdin, buffer: &mut [u8]) -> usize
    ensures { result ≤ length buffer.new }
{
    let mut n = 0;
    while n < buffer.len() {
        let came = from.read(&mut buffer[n..]).unwrap_or(0);
        if came == 0 {
            break;
        }
        n += came;
    }
    n
}

// Answers each line; the first finds a fresh card.
fn answer_all(out: Stdout, input: &[u8]) {
    let mut card = Card::fresh();
    let mut rest = input;
    while !rest.is_empty() {
        let (line, behind) = rest.split_at(lines::find(rest, b'\n'));
        answer(out, &mut card, line);
        output::newline(out);
        let Some((_newline, next)) = behind.split_first() else {
            break;
        };
        rest = next;
    }
}

// Answers a line, given without its newline: the calls on the card are here.
fn answer(out: Stdout, card: &mut Card, line: &[u8]) {
    let row = lines::numbers_of(words::rest(line), DIGITS);
    match (words::word_of(line), row.as_slice()) {
        (Word::Fresh, _) => calls::fresh(out, card),
        (Word::Old, _) => calls::old(out, card),
        (Word::Undo, _) => calls::undo(out, card),
        (Word::CardShot, _) => calls::shot(out, card),
        (Word::Read, _) => calls::read(out, card, words::rest(line)),
        (Word::Hear, [field, number]) => calls::hear(out, card, *field, *number),
        (Word::Confirm, [field]) => calls::confirm(out, card, *field),
        (Word::Pointing, [angle]) => calls::pointing(out, card, *angle),
        (Word::Choice, numbers) => lists::choice(out, numbers),
        (word, numbers) => answer_numbers(out, word, numbers),
    }
}

// Answers a word that leaves the card alone, with its numbers.
fn answer_numbers(out: Stdout, word: Word, numbers: &[i64]) {
    match (word, numbers) {
        (Word::Sine, [a]) => angles::sines(out, *a),
        (Word::Angle, [x, y]) => angles::of_vector(out, *x, *y),
        (Word::Direction, [x, y, z, sidereal, latitude, longitude]) => {
            let site = Site {
                latitude: *latitude,
                longitude: *longitude,
            };
            angles::of_direction(out, *x, *y, *z, *sidereal, site);
        }
        (Word::Date, [year, month, day]) => instant::date(out, *year, *month, *day),
        _ => answer_fields(out, word, numbers),
    }
}

// Answers a word that asks with the fields of the card, from the first on, or with those of an instant; behind them an edition may stand.
fn answer_fields(out: Stdout, word: Word, numbers: &[i64]) {
    let default = fieldbook::DEFAULTS.edition;
    match (word, numbers.len()) {
        (Word::Shot, 11) => instant::shot(out, numbers, default),
        (Word::Shot, 12) => instant::shot(out, numbers, numbers[11]),
        (Word::Parts, 12) => instant::steps(out, numbers, numbers[11]),
        (Word::Longitude, 9) => instant::longitude(out, numbers, numbers[8]),
        (Word::Instant, 8) => instant::time(out, numbers),
        (Word::Sun, 8) => instant::sun(out, numbers),
        _ => output::malformed(out),
    }
}
