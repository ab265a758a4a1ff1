// The bytes of a line: where it ends, its numbers, and the numbers and words of an answer.
#![tactic(auto)]

ghost use Rattle.std.specs.Prelude.{◌≡◌, [], ◌∷◌, ◌++◌, ◌+◌, ◌^◌, ◌<◌, ◌≤◌, length, IfSome};
ghost use Rattle.lines.specs.Bytes.{index_of};
ghost use Rattle.lines.specs.Numerals.{digits_of, numeral_of, row_length, numbers_of, listed};

mod output;

pub use output::Output;

// The most numbers that a line of any program has: a pointing's eleven fields, its horizontal angle and the edition.
pub const ROW: usize = 13;

// The numbers of a line, the first `count` of the array. A line that is not numbers with one space between has none. Kept: no
// `ArrayVec`, since a row is `Copy`.
#[derive(Clone, Copy)]
pub struct Row {
    pub numbers: [i64; ROW],
    pub count: usize,
}

impl Row {
    // No number yet.
    fn new() -> Row
        ensures { listed result ≡ [] }
    {
        Row {
            numbers: [0; ROW],
            count: 0,
        }
    }

    // The numbers that it holds.
    pub fn as_slice(&self) -> &[i64]
        ensures { result.now ≡ listed self.now }
    {
        &self.numbers[..self.count.min(ROW)]
    }

    // One number more.
    fn push(&mut self, n: i64)
        requires { self.old.count < row_length }
        ensures numbers { listed self.new ≡ listed self.old ++ n ∷ [] }
        ensures count { self.new.count ≡ self.old.count + 1 }
        ensures room { length self.new.numbers ≡ length self.old.numbers }
    {
        self.numbers[self.count] = n;
        self.count += 1;
    }
}

// The index of the first `b` in `s`, or its length where there is none.
pub fn find(s: &[u8], b: u8) -> usize
    ensures { (result ≡ index_of b s.now) × (result ≤ length s.now) }
{
    memchr::memchr(b, s).unwrap_or(s.len())
}

// 1 to `most` digits.
fn digits_of(s: &[u8], most: usize) -> Option<u64>
    requires { most ≤ 18 }
    ensures value { result ≡ digits_of most s.now }
    ensures below { IfSome result (λ n. n < 10 ^ 18) }
{
    if s.is_empty() || most < s.len() {
        return None;
    }
    let mut n = 0;
    for &c in s {
        if !c.is_ascii_digit() {
            return None;
        }
        n = n * 10 + u64::from(c - b'0');
    }
    Some(n)
}

// An optional "-" and 1 to `most` digits.
fn numeral_of(s: &[u8], most: usize) -> Option<i64>
    requires { most ≤ 18 }
    ensures { result ≡ numeral_of most s.now }
{
    match s {
        [b'-', digits @ ..] => Some(-(digits_of(digits, most)? as i64)),
        _ => Some(digits_of(s, most)? as i64),
    }
}

// The numbers of a line, each an optional "-" and 1 to `most` digits, with one space between.
pub fn numbers_of(s: &[u8], most: usize) -> Row
    requires { most ≤ 18 }
    ensures numbers { listed result ≡ numbers_of most s.now }
    ensures fits { result.count ≤ row_length }
{
    let mut row = Row::new();
    let mut rest = s;
    loop {
        let (word, behind) = rest.split_at(find(rest, b' '));
        let Some(n) = numeral_of(word, most) else {
            return Row::new();
        };
        if ROW <= row.count {
            return Row::new();
        }
        row.push(n);
        let Some((_space, next)) = behind.split_first() else {
            return row;
        };
        rest = next;
    }
}
