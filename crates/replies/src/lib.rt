// The line protocols of the programs: what a line asks, and what it is answered.
#![tactic(auto)]

ghost use Rattle.std.specs.Prelude.{◌≡◌, suc, ◌+◌, ◌≤◌, length};
ghost use Rattle.refusal.specs.RefusalNumbers.{number_of, verdict_number};
ghost use Rattle.fieldbook.specs.Shot.{shot_values};
ghost use Rattle.pointing.specs.Pointing.{pointing_values};
ghost use Rattle.short_series.specs.Editions.{editions_values};
ghost use Rattle.lines.specs.Appending.{capacity, Appends};
ghost use Rattle.replies.specs.Commands.{letter_command, session_command};
ghost use Rattle.replies.specs.Sizes.{longest};
ghost use Rattle.replies.specs.Answers.{labelled_text, pair_text, refusal_text, verdict_text, read_text, card_read, shot_text, mark_text, editions_text, numbers_asked, options_asked, is_asked, asked_text, batch_text, command_text, command_card, batch_reply, reply, next};
ghost use Rattle.replies.specs.declared.Protocol.TheVariants.{Session};

use card::Card;
use fieldbook::ShotAngles;
use lines::Output;
use refusal::Refusal;
use short_series::Comparison;

// The most digits of a number in a line of the session, and of a batch.
const SESSION_DIGITS: usize = 9;

const BATCH_DIGITS: usize = 18;

// The most bytes that an answer takes, without its newline.
const LONGEST: usize = 106;

// Which program's lines.
#[derive(Clone, Copy, Debug, PartialEq, Eq)]
pub enum Protocol {
    // A card of fields: `H field number`, `R field`, `C field`, `S`.
    Session,
    // Numbers alone, which ask the same on every line.
    Batch(Question),
}

// What a line of a batch asks.
#[derive(Clone, Copy, Debug, PartialEq, Eq)]
pub enum Question {
    // A shot: a number for each field, in the order of the card.
    Shot,
    // A pointing: these, and behind them the horizontal angle, clockwise from the mark to the body in units of 0.0001 second of arc.
    // Behind the numbers of either may stand options, in their order.
    Pointing,
    // Both editions of the Sun's series at an instant: fields 1 to 7 and 11 of the card.
    Editions,
}

impl Question {
    // How many numbers its line has before its options.
    fn numbers(self) -> usize
        ensures { result ≡ numbers_asked self }
    {
        match self {
            Question::Shot => card::FIELDS,
            Question::Pointing => card::FIELDS + 1,
            Question::Editions => short_series::NUMBERS,
        }
    }

    // How many options may stand behind them.
    fn options(self) -> usize
        ensures { result ≡ options_asked self }
    {
        match self {
            Question::Shot | Question::Pointing => fieldbook::OPTIONS,
            Question::Editions => 0,
        }
    }

    // Whether its line may have so many numbers: those that it takes, and options behind them.
    fn takes(self, count: usize) -> bool
        ensures { result ≡ is_asked self count }
    {
        let asked = self.numbers();
        (asked..=asked + self.options()).contains(&count)
    }
}

// What a line of the session asks.
#[derive(Clone, Copy, Debug, PartialEq, Eq)]
pub enum Command {
    Hear(i64, i64),
    Read(i64),
    Confirm(i64),
    Shoot,
    // Kept: no `Option<Command>`, since a malformed line is answered like any other, by its own case of `command_text`.
    Malformed,
}

// A letter, and the numbers behind it: `H` with a field and a number, `R` and `C` with a field.
fn letter_command(letter: u8, numbers: &[i64]) -> Command
    ensures { result ≡ letter_command letter numbers.now }
{
    match (letter, numbers) {
        (b'H', [field, number]) => Command::Hear(*field, *number),
        (b'R', [field]) => Command::Read(*field),
        (b'C', [field]) => Command::Confirm(*field),
        _ => Command::Malformed,
    }
}

// What a line of the session asks, given without its newline.
pub fn session_command(line: &[u8]) -> Command
    ensures { result ≡ session_command line.now }
{
    match line {
        [b'S'] => Command::Shoot,
        [letter, b' ', words @ ..] => {
            letter_command(*letter, lines::numbers_of(words, SESSION_DIGITS).as_slice())
        }
        _ => Command::Malformed,
    }
}

// Appends a label and a number.
fn append_labelled(out: &mut Output<'_>, label: &[u8], n: u64)
    requires { out.old.len + (length label.now + 20) ≤ capacity out.old }
    ensures appends { Appends out.old (labelled_text label.now n) out.new }
    ensures upper_bound { out.new.len ≤ out.old.len + (length label.now + 20) }
{
    out.append(label);
    out.append_decimal(n);
}

// Appends two labels, each with its number.
fn append_pair(out: &mut Output<'_>, first: &[u8], m: u64, second: &[u8], n: u64)
    requires { out.old.len + (length first.now + length second.now + 40) ≤ capacity out.old }
    ensures appends { Appends out.old (pair_text first.now m second.now n) out.new }
    ensures upper_bound { out.new.len ≤ out.old.len + (length first.now + length second.now + 40) }
{
    append_labelled(out, first, m);
    append_labelled(out, second, n);
}

// Appends `no` and the number of a refusal.
fn append_refusal(out: &mut Output<'_>, refusal: Refusal)
    requires { out.old.len + longest ≤ capacity out.old }
    ensures appends { Appends out.old (refusal_text (number_of refusal)) out.new }
    ensures upper_bound { out.new.len ≤ out.old.len + longest }
{
    append_labelled(out, b"no ", u64::from(refusal));
}

// Appends `ok`, or a refusal.
fn append_verdict(out: &mut Output<'_>, verdict: Result<(), Refusal>)
    requires { out.old.len + longest ≤ capacity out.old }
    ensures appends { Appends out.old (verdict_text (verdict_number verdict)) out.new }
    ensures upper_bound { out.new.len ≤ out.old.len + longest }
{
    match verdict {
        Ok(()) => out.append(b"ok"),
        Err(refusal) => append_refusal(out, refusal),
    }
}

// Appends the answer to a shot: azimuth and zenith distance, and in a batch hour angle and apparent longitude behind them.
fn append_shot(out: &mut Output<'_>, protocol: Protocol, shot: Result<ShotAngles, Refusal>)
    requires { out.old.len + longest ≤ capacity out.old }
    ensures appends { Appends out.old (shot_text protocol (shot_values shot)) out.new }
    ensures upper_bound { out.new.len ≤ out.old.len + longest }
{
    match shot {
        Ok(a) => {
            append_pair(out, b"az ", a.azimuth, b" zd ", a.zenith_distance);
            if let Protocol::Batch(_) = protocol {
                append_pair(out, b" ha ", a.hour_angle, b" s ", a.longitude);
            }
        }
        Err(refusal) => append_refusal(out, refusal),
    }
}

// Appends the answer to a pointing: the azimuth of the mark, in units of 0.0001 second of arc.
fn append_mark(out: &mut Output<'_>, mark: Result<u64, Refusal>)
    requires { out.old.len + longest ≤ capacity out.old }
    ensures appends { Appends out.old (mark_text (pointing_values mark)) out.new }
    ensures upper_bound { out.new.len ≤ out.old.len + longest }
{
    match mark {
        Ok(azimuth) => append_labelled(out, b"mark ", azimuth),
        Err(refusal) => append_refusal(out, refusal),
    }
}

// Appends the answer to an instant by both editions: the two longitudes, how far they are apart, and the bound of that.
fn append_editions(out: &mut Output<'_>, answer: Result<Comparison, Refusal>)
    requires { out.old.len + longest ≤ capacity out.old }
    ensures appends { Appends out.old (editions_text (editions_values answer)) out.new }
    ensures upper_bound { out.new.len ≤ out.old.len + longest }
{
    match answer {
        Ok(c) => {
            append_pair(out, b"short ", c.short, b" full ", c.full);
            append_pair(out, b" apart ", c.apart, b" bound ", c.bound);
        }
        Err(refusal) => append_refusal(out, refusal),
    }
}

// Appends the answer to a question, which as many numbers ask as it takes, and options behind them.
fn append_asked(out: &mut Output<'_>, question: Question, numbers: &[i64])
    requires room { out.old.len + longest ≤ capacity out.old }
    requires asked { numbers_asked question ≤ length numbers.now }
    ensures appends { Appends out.old (asked_text question numbers.now) out.new }
    ensures upper_bound { out.new.len ≤ out.old.len + longest }
{
    match question {
        Question::Shot => {
            let query = fieldbook::query_of(numbers, card::FIELDS);
            append_shot(out, Protocol::Batch(Question::Shot), fieldbook::shot(query));
        }
        Question::Pointing => {
            let query = fieldbook::query_of(numbers, card::FIELDS + 1);
            let angle = numbers[card::FIELDS];
            append_mark(out, pointing::pointing(query, angle));
        }
        Question::Editions => {
            append_editions(out, short_series::editions(short_series::time_of(numbers)));
        }
    }
}

// Appends the answer to the numbers of a line: to the question where there are as many as it takes, with options or without, else that the
// line is malformed.
fn append_batch(out: &mut Output<'_>, question: Question, numbers: &[i64])
    requires { out.old.len + longest ≤ capacity out.old }
    ensures appends { Appends out.old (batch_text question numbers.now) out.new }
    ensures upper_bound { out.new.len ≤ out.old.len + longest }
{
    if question.takes(numbers.len()) {
        append_asked(out, question, numbers);
    } else {
        append_refusal(out, Refusal::Malformed);
    }
}

// Reads a field out, into an array that has room for every number of 64 bits, so that the reading always has room.
fn read_out(card: &mut Card, field: i64, out: &mut Output<'_>)
    requires { out.old.len + longest ≤ capacity out.old }
    ensures card_value { card.new ≡ card_read card.old field }
    ensures appends { Appends out.old (read_text card.old field) out.new }
    ensures end_bound { out.new.len ≤ out.old.len + longest }
{
    let mut text = [0u8; LONGEST];
    match card.read(field, &mut text, 0) {
        Ok(length) => out.append(&text[..length]),
        Err(refusal) => append_refusal(out, refusal),
    }
}

// Does what a command asks, and appends its answer.
fn command_reply(command: Command, card: &mut Card, out: &mut Output<'_>)
    requires { out.old.len + longest ≤ capacity out.old }
    ensures card_value { card.new ≡ command_card command card.old }
    ensures appends { Appends out.old (command_text command card.old) out.new }
    ensures end_bound { out.new.len ≤ out.old.len + longest }
{
    match command {
        Command::Hear(field, number) => append_verdict(out, card.hear(field, number)),
        Command::Read(field) => read_out(card, field, out),
        Command::Confirm(field) => append_verdict(out, card.confirm(field)),
        Command::Shoot => {
            let shot = fieldbook::shot_from_card(card, fieldbook::DEFAULTS);
            append_shot(out, Protocol::Session, shot);
        }
        Command::Malformed => append_refusal(out, Refusal::Malformed),
    }
}

// Answers a line of the session, given without its newline: appends the answer and a newline.
pub fn session_reply(card: &mut Card, line: &[u8], out: &mut Output<'_>)
    requires { out.old.len + suc longest ≤ capacity out.old }
    ensures card_value { card.new ≡ next Session card.old line.now }
    ensures appends { Appends out.old (reply Session card.old line.now) out.new }
    ensures end_bound { out.new.len ≤ out.old.len + suc longest }
{
    command_reply(session_command(line), card, out);
    out.append(b"\n");
}

// Answers a line of a batch, in which no card has a part: appends the answer and a newline.
pub fn batch_reply(question: Question, line: &[u8], out: &mut Output<'_>)
    requires { out.old.len + suc longest ≤ capacity out.old }
    ensures appends { Appends out.old (batch_reply question line.now) out.new }
    ensures upper_bound { out.new.len ≤ out.old.len + suc longest }
{
    append_batch(
        out,
        question,
        lines::numbers_of(line, BATCH_DIGITS).as_slice(),
    );
    out.append(b"\n");
}

// Answers a line of a program: appends the answer and a newline.
#[tactic(auto, unfolding(crate::specs::Answers::reply, crate::specs::Answers::next))]
pub fn reply(protocol: Protocol, card: &mut Card, line: &[u8], out: &mut Output<'_>)
    requires { out.old.len + suc longest ≤ capacity out.old }
    ensures card_value { card.new ≡ next protocol card.old line.now }
    ensures appends { Appends out.old (reply protocol card.old line.now) out.new }
    ensures end_bound { out.new.len ≤ out.old.len + suc longest }
{
    match protocol {
        Protocol::Session => session_reply(card, line, out),
        Protocol::Batch(question) => batch_reply(question, line, out),
    }
}
