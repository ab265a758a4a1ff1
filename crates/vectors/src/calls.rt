// The calls on the card, as the outside vectors write them. The answer to each ends with the card after it.
use crate::{output, words};
use card::Card;
use refusal::Refusal;
use std::io::Stdout;

// The longest buffer that a reading is given.
const LONGEST: usize = 64;

pub fn fresh(out: Stdout, card: &mut Card) {
    *card = Card::fresh();
    output::card(out, card);
}

// The start on which DUT1 is assumed to be 0.
pub fn old(out: Stdout, card: &mut Card) {
    *card = Card::fresh_with_dut1_assumed_zero();
    output::card(out, card);
}

pub fn hear(out: Stdout, card: &mut Card, field: i64, number: i64) {
    answered(out, card.hear(field, number), card);
}

pub fn confirm(out: Stdout, card: &mut Card, field: i64) {
    answered(out, card.confirm(field), card);
}

pub fn undo(out: Stdout, card: &mut Card) {
    answered(out, card.undo(), card);
}

// The shot from the card, with the default options.
pub fn shot(out: Stdout, card: &Card) {
    output::shot(out, fieldbook::shot_from_card(card, fieldbook::DEFAULTS));
    ended(out, card);
}

// The pointing from the card, with a horizontal angle and the default options.
pub fn pointing(out: Stdout, card: &Card, angle: i64) {
    output::mark(
        out,
        pointing::pointing_from_card(card, fieldbook::DEFAULTS, angle),
    );
    ended(out, card);
}

// A field, a place and a buffer.
pub fn read(out: Stdout, card: &mut Card, words: &[u8]) {
    let behind_field = words::rest(words);
    let place = words::first(behind_field);
    let numbers = lines::numbers_of(words::first(words), crate::DIGITS);
    let places = lines::numbers_of(place, crate::DIGITS);
    let buffer = words::rest(behind_field);
    match (numbers.as_slice(), places.as_slice()) {
        ([field], [place]) if 0 <= *place && is_buffer(buffer) => {
            read_hex(out, card, *field, buffer, exact::magnitude(*place) as usize)
        }
        _ => output::malformed(out),
    }
}

// Whether a word is a buffer: `-` is the empty one, else it is pairs of hexadecimal digits, and not too many.
fn is_buffer(word: &[u8]) -> bool {
    match word {
        b"" => false,
        b"-" => true,
        _ => word.len() <= 2 * LONGEST && word.len() % 2 == 0,
    }
}

fn read_hex(out: Stdout, card: &mut Card, field: i64, hex: &[u8], place: usize) {
    let mut space = [0u8; LONGEST];
    let n = words::unhex(hex, &mut space);
    read_into(out, card, field, &mut space[..n], place);
}

fn read_into(out: Stdout, card: &mut Card, field: i64, buffer: &mut [u8], place: usize) {
    output::reading(out, card.read(field, buffer, place));
    output::hex(out, buffer);
    ended(out, card);
}

fn answered(out: Stdout, verdict: Result<(), Refusal>, card: &Card) {
    output::verdict(out, verdict);
    ended(out, card);
}

fn ended(out: Stdout, card: &Card) {
    output::space(out);
    output::card(out, card);
}
