// The text of a number as it is read out, and the writing of it into a buffer. Document 01, "The card".
#![tactic(auto)]

ghost use Rattle.std.specs.Prelude.{◌≡◌, ◌++◌, ◌+◌, ◌%◌, ◌≤◌, length, drop};
ghost use Rattle.digits.specs.Text.{digits, text};
ghost use Rattle.digits.specs.Writing.{write_at, buffer_with};

// The last decimal digit of n, as a byte.
pub fn last_digit(n: u64) -> u8
    ensures { result ≡ 48 + n % 10 }
{
    b'0' + (n % 10) as u8
}

// How many bytes the digits of n take.
#[tactic(auto, using(crate::proofs::Decimal::lengths))]
fn digits_len(n: u64) -> usize
    ensures { result ≡ length (digits n) }
{
    if n < 10 { 1 } else { digits_len(n / 10) + 2 }
}

// Writes the digits of n at the buffer's start, the quotient's before the last digit, and returns how many bytes they take.
#[tactic(auto, using(crate::proofs::Decimal::lengths))]
fn write_digits(buf: &mut [u8], n: u64) -> usize
    requires { length (digits n) ≤ length buf.old }
    ensures value { result ≡ length (digits n) }
    ensures buf_after { buf.new ≡ digits n ++ drop (length (digits n)) buf.old }
{
    if n < 10 {
        buf[0] = last_digit(n);
        return 1;
    }
    let k = write_digits(buf, n / 10);
    buf[k] = b' ';
    buf[k + 1] = last_digit(n);
    k + 2
}

// How many bytes the text of n takes.
#[tactic(auto, using(crate::proofs::Decimal::lengths))]
fn text_len(n: i64) -> usize
    ensures { result ≡ length (text n) }
{
    let k = digits_len(exact::magnitude(n));
    if n < 0 { k + 2 } else { k }
}

// Writes the text of n at the buffer's start, and returns how many bytes it takes.
fn write_text(buf: &mut [u8], n: i64) -> usize
    requires { length (text n) ≤ length buf.old }
    ensures value { result ≡ length (text n) }
    ensures buf_after { buf.new ≡ text n ++ drop (length (text n)) buf.old }
{
    let m = exact::magnitude(n);
    if n < 0 {
        buf[0] = b'-';
        buf[1] = b' ';
        let k = write_digits(&mut buf[2..], m);
        return k + 2;
    }
    write_digits(buf, m)
}

// Writes the text of n from a place of the buffer on, and says how many bytes it takes. Where it does not fit, the answer is None and the buffer stays as
// it was.
pub fn write_at(buf: &mut [u8], place: usize, n: i64) -> Option<usize>
    ensures value { result ≡ write_at buf.old place n }
    ensures buf_after { buf.new ≡ buffer_with buf.old place n }
{
    if buf.len() < place || buf.len() - place < text_len(n) {
        return None;
    }
    Some(write_text(&mut buf[place..], n))
}
