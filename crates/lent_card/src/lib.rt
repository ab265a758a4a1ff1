// The calls on a card in lent words: the card that the words are is called, and its words come in their place. The words are tested before each
// call, and where they are no card nothing is written.
#![tactic(auto)]

ghost use Rattle.std.specs.Prelude.{◌≡◌};
ghost use Rattle.std.specs.Fn.{FnOnceReturnsAtMut};
ghost use Rattle.refusal.specs.RefusalNumbers.{verdict_number};
ghost use Rattle.lent_card.specs.LentCard.{words_values, CalledOn, fresh_words, hear_words, confirm_words, undo_words, read_words_values, read_words, buffer_words};

use card::Card;
use card_words::WORDS;
use refusal::Refusal;

// The refusal of words that are no card: a number of our own, beyond those of the rules.
pub const NO_CARD: u64 = 100;

// What reading answers, laid out as in C: the refusal's number, 0 for none, and how many bytes the text is long, 0 with a refusal.
#[repr(C)]
#[derive(Clone, Copy, Debug, PartialEq, Eq)]
pub struct ReadAnswer {
    pub refusal: u64,
    pub length: u64,
}

// The refusal's number, 0 where the call is accepted, as C is told. Kept: no `From`, since `Result` and `u64` are both std's.
fn number_of(answer: Result<(), Refusal>) -> u64
    ensures { result ≡ verdict_number answer }
{
    match answer {
        Ok(()) => 0,
        Err(refusal) => u64::from(refusal),
    }
}

// Makes a call on the card that the words are, and the words those of the card after it. Gives the refusal's number.
fn on_words<F: FnOnce(&mut Card) -> Result<(), Refusal>>(words: &mut [i64], call: F) -> u64
    requires { F.IsAlwaysCallable call }
    ensures { CalledOn (λ c r d. FnOnceReturnsAtMut F.FnOnce call c r d) words.old (words_values result words.new) }
{
    let mut restored = None;
    card_words::restore(words, &mut restored);
    let Some(card) = &mut restored else {
        return NO_CARD;
    };
    let answer = call(card);
    card_words::to_words(card, words);
    number_of(answer)
}

// Makes the words a fresh card.
pub fn fresh(words: &mut [i64]) -> u64
    ensures { words_values result words.new ≡ fresh_words words.old }
{
    if words.len() != WORDS {
        return NO_CARD;
    }
    card_words::to_words(&Card::fresh(), words);
    0
}

// Hears a number into a field.
pub fn hear(words: &mut [i64], field: i64, number: i64) -> u64
    ensures { words_values result words.new ≡ hear_words words.old field number }
{
    on_words(words, |card| card.hear(field, number))
}

// Confirms a field that was read out.
pub fn confirm(words: &mut [i64], field: i64) -> u64
    ensures { words_values result words.new ≡ confirm_words words.old field }
{
    on_words(words, |card| card.confirm(field))
}

// Undoes the latest accepted hearing.
pub fn undo(words: &mut [i64]) -> u64
    ensures { words_values result words.new ≡ undo_words words.old }
{
    on_words(words, |card| card.undo())
}

// Reads a field out, into a buffer from a place on.
pub fn read(words: &mut [i64], field: i64, buffer: &mut [u8], place: usize) -> ReadAnswer
    ensures words_after { read_words_values result words.new ≡ read_words words.old field buffer.old place }
    ensures buffer_after { buffer.new ≡ buffer_words words.old field buffer.old place }
{
    let mut restored = None;
    card_words::restore(words, &mut restored);
    let Some(card) = &mut restored else {
        return ReadAnswer {
            refusal: NO_CARD,
            length: 0,
        };
    };
    let reading = card.read(field, buffer, place);
    card_words::to_words(card, words);
    match reading {
        Ok(length) => ReadAnswer {
            refusal: 0,
            length: length as u64,
        },
        Err(refusal) => ReadAnswer {
            refusal: u64::from(refusal),
            length: 0,
        },
    }
}
