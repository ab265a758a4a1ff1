// The parts of an answer's line. Each number but the first follows a space.
use card::{Card, Field};
use fieldbook::ShotAngles;
use horizon::SightAngles;
use refusal::Refusal;
use std::io::Stdout;

pub fn newline(out: Stdout) {
    let _ = out.write_all(b"\n");
}

// The number that an answer begins with.
pub fn accepted(out: Stdout) {
    let _ = out.write_all(b"0");
}

pub fn refused(out: Stdout, refusal: Refusal) {
    number(out, u64::from(refusal));
}

pub fn number(out: Stdout, refusal: u64) {
    let _ = out.print(refusal);
}

pub fn malformed(out: Stdout) {
    refused(out, Refusal::Malformed);
}

pub fn verdict(out: Stdout, verdict: Result<(), Refusal>) {
    match verdict {
        Ok(()) => accepted(out),
        Err(refusal) => refused(out, refusal),
    }
}

pub fn space(out: Stdout) {
    let _ = out.write_all(b" ");
}

// A reading's refusal number and length, of which one is always 0.
pub fn reading(out: Stdout, reading: Result<usize, Refusal>) {
    match reading {
        Ok(length) => {
            accepted(out);
            natural(out, length as u64);
        }
        Err(refusal) => {
            refused(out, refusal);
            natural(out, 0);
        }
    }
}

// A number behind a space.
pub fn natural(out: Stdout, n: u64) {
    let _ = print!(out; " {n}");
}

pub fn integer(out: Stdout, n: i64) {
    let _ = print!(out; " {n}");
}

pub fn integers(out: Stdout, numbers: &[i64]) {
    for &n in numbers {
        integer(out, n);
    }
}

// A shot: the refusal's number and four angles, zeros where it is refused.
pub fn shot(out: Stdout, shot: Result<ShotAngles, Refusal>) {
    match shot {
        Ok(a) => {
            accepted(out);
            natural(out, a.azimuth);
            natural(out, a.zenith_distance);
            natural(out, a.hour_angle);
            natural(out, a.longitude);
        }
        Err(refusal) => {
            refused(out, refusal);
            let _ = out.write_all(b" 0 0 0 0");
        }
    }
}

// A pointing: the refusal's number and the mark's azimuth, 0 where it is refused.
pub fn mark(out: Stdout, mark: Result<u64, Refusal>) {
    match mark {
        Ok(azimuth) => {
            accepted(out);
            natural(out, azimuth);
        }
        Err(refusal) => {
            refused(out, refusal);
            natural(out, 0);
        }
    }
}

// What a sight begins its answer with, and what it ends it with.
pub fn sight_begin(out: Stdout, sight: Result<SightAngles, Refusal>) {
    match sight {
        Ok(_) => accepted(out),
        Err(refusal) => refused(out, refusal),
    }
}

pub fn sight_end(out: Stdout, sight: Result<SightAngles, Refusal>) {
    if let Ok(a) = sight {
        natural(out, a.azimuth);
        natural(out, a.zenith_distance);
        natural(out, a.hour_angle);
    }
}

// The bar, and each field's state and number.
pub fn card(out: Stdout, card: &Card) {
    let _ = out.write_all(b"|");
    for f in card.fields() {
        field(out, *f);
    }
}

fn field(out: Stdout, field: Field) {
    match field {
        Field::Empty => {
            let _ = out.write_all(b" e");
        }
        Field::Heard(n) => {
            let _ = print!(out; " h{n}");
        }
        Field::Read(n) => {
            let _ = print!(out; " r{n}");
        }
        Field::Confirmed(n) => {
            let _ = print!(out; " c{n}");
        }
    }
}

// A buffer as pairs of hexadecimal digits, or "-" where it is empty.
pub fn hex(out: Stdout, buffer: &[u8]) {
    space(out);
    if buffer.is_empty() {
        let _ = out.write_all(b"-");
    }
    for b in buffer {
        let _ = print!(out; "{b:02x}");
    }
}
