// A program over lines: its input comes in chunks of any length, and each whole line is answered at once.
#![tactic(auto)]

ghost use Rattle.std.specs.Prelude.{◌≡◌, [], ◌++◌, ◌+◌, ◌*◌, ◌≤◌, length, take};
ghost use Rattle.card.specs.Fields.{fresh_card};
ghost use Rattle.lines.specs.Appending.{capacity, written, Appends};
ghost use Rattle.replies.specs.Answers.{reply, next};
ghost use Rattle.stream.specs.Sizes.{chunk_length, room};
ghost use Rattle.stream.specs.Feeding.{kept_length, held, last_reply, Feeds, FeedsAnew, Reached, Completes};

use card::Card;
use lines::Output;
use replies::Protocol;
use std::io;
use std::io::{Read, Write};

// The bytes that are kept of an unfinished line: one more than the longest line has that is not malformed.
const KEPT: usize = 260;

// The bytes that are read at once, and room for the answers to them: each byte ends one line at most, whose answer and newline take at most 107.
const CHUNK: usize = 4_096;

const OUTPUT: usize = 438_272;

// The unfinished line: the first `len` bytes of the array. Kept: no `ArrayVec`, since a state is `Copy`.
#[derive(Clone, Copy)]
pub struct Kept {
    pub bytes: [u8; KEPT],
    pub len: usize,
}

impl Kept {
    // Nothing is kept.
    fn new() -> Kept
        ensures { held result ≡ [] }
    {
        Kept {
            bytes: [0; KEPT],
            len: 0,
        }
    }

    // The bytes that are kept.
    fn as_slice(&self) -> &[u8]
        ensures { result.now ≡ held self.now }
    {
        &self.bytes[..self.len.min(KEPT)]
    }

    // Keeps a piece more, as much of it as there is room for.
    fn keep(&mut self, piece: &[u8])
        ensures { held self.new ≡ take kept_length (held self.old ++ piece.now) }
    {
        let len = self.len.min(KEPT);
        let end = len + piece.len().min(KEPT - len);
        self.bytes[len..end].copy_from_slice(&piece[..end - len]);
        self.len = end;
    }
}

// What a program holds between two chunks: the card, and what is kept of the unfinished line.
#[derive(Clone, Copy)]
pub struct State {
    pub card: Card,
    pub kept: Kept,
}

impl State {
    // A fresh card, and no line begun.
    pub fn start() -> State
        ensures { (result.card ≡ fresh_card) × (held result.kept ≡ []) }
    {
        State {
            card: Card::fresh(),
            kept: Kept::new(),
        }
    }

    // Answers the line that a piece ends.
    fn end_line(&mut self, protocol: Protocol, piece: &[u8], out: &mut Output<'_>)
        requires { out.old.len + room ≤ capacity out.old }
        ensures card_value { self.new.card ≡ next protocol self.old.card (held self.old.kept ++ piece.now) }
        ensures kept_value { held self.new.kept ≡ [] }
        ensures appends { Appends out.old (reply protocol self.old.card (held self.old.kept ++ piece.now)) out.new }
        ensures end_bound { out.new.len ≤ out.old.len + room }
    {
        if self.kept.as_slice().is_empty() {
            replies::reply(protocol, &mut self.card, piece, out);
        } else {
            self.kept.keep(piece);
            replies::reply(protocol, &mut self.card, self.kept.as_slice(), out);
            self.kept.len = 0;
        }
    }

    // Takes a chunk of input: answers each line that it ends, and keeps the rest.
    pub fn feed(&mut self, protocol: Protocol, chunk: &[u8], out: &mut Output<'_>)
        requires { out.old.len + length chunk.now * room ≤ capacity out.old }
        ensures { Feeds protocol self.old chunk.now self.new out.old out.new }
    {
        let mut rest = chunk;
        loop {
            let (piece, behind) = rest.split_at(lines::find(rest, b'\n'));
            let Some((_newline, next)) = behind.split_first() else {
                return self.kept.keep(piece);
            };
            self.end_line(protocol, piece, out);
            rest = next;
        }
    }

    // Answers the last line of the input, where it lacks its newline. The state stays as it is: after the input's end nobody needs another.
    pub fn finish(&self, protocol: Protocol, out: &mut Output<'_>)
        requires { out.old.len + room ≤ capacity out.old }
        ensures { Appends out.old (last_reply protocol self.now.card (held self.now.kept)) out.new }
    {
        if !self.kept.as_slice().is_empty() {
            let mut card = self.card;
            replies::reply(protocol, &mut card, self.kept.as_slice(), out);
        }
    }
}

// Reads once, answers what came in a buffer that is begun anew, and says how many bytes came: none where the input has ended or cannot be read.
// No contract can say which bytes the system reads: here they are what the call left at the front of `input`.
fn feed_some<R: Read>(
    state: &mut State,
    protocol: Protocol,
    reader: &mut R,
    input: &mut [u8],
    out: &mut Output<'_>,
) -> usize
    requires { length input.old * room ≤ capacity out.old }
    ensures feeds { FeedsAnew protocol state.old (take result input.new) state.new (written out.new) }
    ensures came_in_bounds { result ≤ length input.old }
    ensures room_after { capacity out.new ≡ capacity out.old }
{
    out.clear(); // what the round before made is written
    let came = reader.read(input).unwrap_or(0);
    state.feed(protocol, &input[..came], out);
    came
}

// Reads to the input's end, and writes what each chunk made before it reads the next; a write that fails ends it too. No contract can say what the
// system writes. A proved loop has to end, so this one has a number of rounds that no run uses up.
fn feed_input<R: Read, W: Write>(
    protocol: Protocol,
    reader: &mut R,
    writer: &mut W,
    out: &mut Output<'_>,
) -> State
    requires { chunk_length * room ≤ capacity out.old }
    ensures reached { Reached protocol result }
    ensures room_after { capacity out.new ≡ capacity out.old }
{
    let mut input = [0u8; CHUNK];
    let mut state = State::start();
    for _round in 0..u64::MAX {
        let came = feed_some(&mut state, protocol, reader, &mut input, out);
        let written = writer.write_all(out.written()).is_ok();
        if came == 0 || !written {
            break;
        }
    }
    state
}

// Reads to the input's end, and answers a last line that lacks its newline: what stands in `out` then is yet to be written.
fn run_with<R: Read, W: Write>(
    protocol: Protocol,
    reader: &mut R,
    writer: &mut W,
    out: &mut Output<'_>,
) -> State
    requires { chunk_length * room ≤ capacity out.old }
    ensures { Completes protocol result (written out.new) }
{
    let state = feed_input(protocol, reader, writer, out);
    out.clear();
    state.finish(protocol, out);
    state
}

// Runs a program: reads standard input to its end and writes the answers of each chunk as it comes in.
pub fn run(rt: &(impl Input + Print), protocol: Protocol) {
    let mut buffer = [0u8; OUTPUT];
    let mut out = Output::new(&mut buffer);
    let mut reader = rt.reader();
    let mut writer = io::writer(rt);
    let _last = run_with(protocol, &mut reader, &mut writer, &mut out);
    let _ = writer.write_all(out.written());
}
