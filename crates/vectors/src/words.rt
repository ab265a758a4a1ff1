// The words of a line, and the bytes that hexadecimal digits stand for.
ghost use Rattle.std.specs.Prelude.{◌/◌, ◌<◌, ◌≤◌, length};

// What a line asks by its first word: of the card, of angles, or of the card's fields from the first on, perhaps with an edition of the Sun's series
// behind them.
#[derive(Clone, Copy)]
pub enum Word {
    Fresh,
    Old,
    Hear,
    Read,
    Confirm,
    Undo,
    CardShot,
    Pointing,
    Sine,
    Angle,
    Direction,
    Date,
    Instant,
    Longitude,
    Sun,
    Parts,
    Shot,
    Choice,
    // Kept: no `Option<Word>`, since a line that asks nothing known is answered by an arm like any other.
    Other,
}

// What a line asks: four words take nothing behind them.
pub fn word_of(line: &[u8]) -> Word {
    match line {
        b"fresh" => Word::Fresh,
        b"old" => Word::Old,
        b"undo" => Word::Undo,
        b"shot" => Word::CardShot,
        _ => numbers_word(first(line)),
    }
}

fn numbers_word(word: &[u8]) -> Word {
    match word {
        b"read" => Word::Read,
        b"choice" => Word::Choice,
        b"hear" => Word::Hear,
        b"confirm" => Word::Confirm,
        b"pointing" => Word::Pointing,
        b"sine" => Word::Sine,
        b"angle" => Word::Angle,
        b"direction" => Word::Direction,
        _ => fields_word(word),
    }
}

fn fields_word(word: &[u8]) -> Word {
    match word {
        b"date" => Word::Date,
        b"instant" => Word::Instant,
        b"longitude" => Word::Longitude,
        b"sun" => Word::Sun,
        b"parts" => Word::Parts,
        b"shot" => Word::Shot,
        _ => Word::Other,
    }
}

// The bytes before the first space.
pub fn first(line: &[u8]) -> &[u8] {
    &line[..lines::find(line, b' ')]
}

// The bytes behind it.
pub fn rest(line: &[u8]) -> &[u8] {
    match &line[lines::find(line, b' ')..] {
        [_space, rest @ ..] => rest,
        none => none,
    }
}

// The bytes that pairs of hexadecimal digits stand for, as far as out has room; their number.
pub fn unhex(word: &[u8], out: &mut [u8]) -> usize
    ensures { result ≤ length out.new }
{
    let n = out.len().min(word.len() / 2);
    for (byte, pair) in out.iter_mut().zip(word.chunks_exact(2)) {
        *byte = hex_digit(pair[0]) * 16 + hex_digit(pair[1]);
    }
    n
}

fn hex_digit(b: u8) -> u8
    ensures { result ≤ 15 }
{
    match b {
        b'0'..=b'9' => b - b'0',
        b'a'..=b'f' => b - b'a' + 10,
        _ => 0,
    }
}
