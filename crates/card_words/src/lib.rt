// A card in lent words of 64 bits, for callers who keep it in their own memory. Of each field, in their order, the number of its state, 0 to 3
// for empty, heard, read and confirmed, and the number that it holds, 0 where it is empty; then what an undo puts back: the field's number,
// 0 where there is nothing to undo, and its state and number as those of a field.
#![tactic(auto)]

ghost use Rattle.std.specs.Prelude.{◌≡◌, ◌+◌, ◌≤◌, length};
ghost use Rattle.std.proofs.lemmas.List.Edits.{sets};
ghost use Rattle.card_words.specs.Words.{word_count, state_number, field_words, card_words, field_said, latest_said, fields_said, restored_from};

use card::{Card, FIELDS, Field, LARGEST_HEARD, Latest};

// How many words a card has.
pub const WORDS: usize = 25;

// Where what an undo puts back begins: behind two words for each field.
const LATEST: usize = 22;

// The field that two words say, if they are a field's: a state that is one, and a number that can be heard, or 0 with an empty field.
fn field_from(state: i64, number: i64) -> Option<Field>
    ensures { result ≡ field_said state number }
{
    if state == 0 {
        return (number == 0).then_some(Field::Empty);
    }
    if !exact::between(1, state, 3) || !exact::between(-LARGEST_HEARD, number, LARGEST_HEARD) {
        return None;
    }
    match state {
        1 => Some(Field::Heard(number)),
        2 => Some(Field::Read(number)),
        _ => Some(Field::Confirmed(number)),
    }
}

// What three words say that an undo puts back, if they say it. It may be nothing.
fn latest_from(field: i64, state: i64, number: i64) -> Option<Option<Latest>>
    ensures { result ≡ latest_said field state number }
{
    if field == 0 {
        return (state == 0 && number == 0).then_some(None);
    }
    if !card::is_field(field) {
        return None;
    }
    let before = field_from(state, number)?;
    Some(Some(Latest { field, before }))
}

// The fields that a card's words say, if they are fields'.
fn fields_from(words: &[i64]) -> Option<[Field; FIELDS]>
    requires { length words.now ≡ word_count }
    ensures { result ≡ fields_said words.now }
{
    let mut fields = [Field::Empty; FIELDS];
    for (i, field) in fields.iter_mut().enumerate() {
        *field = field_from(words[2 * i], words[2 * i + 1])?;
    }
    Some(fields)
}

// Makes of lent words the card that they are, if they are one. It is made in its place: a card that is handed back is copied, by a function that an
// archive for C would need from outside.
pub fn restore(words: &[i64], restored: &mut Option<Card>)
    ensures { restored.new ≡ restored_from words.now }
{
    *restored = None;
    if words.len() != WORDS {
        return;
    }
    let Some(latest) = latest_from(words[LATEST], words[LATEST + 1], words[LATEST + 2]) else {
        return;
    };
    if let Some(fields) = fields_from(words) {
        *restored = Some(Card::from_parts(fields, latest));
    }
}

// The card that lent words are, if they are one.
pub fn from_words(words: &[i64]) -> Option<Card>
    ensures { result ≡ restored_from words.now }
{
    let mut restored = None;
    restore(words, &mut restored);
    restored
}

// The number of a field's state. Kept: no `From<Field>`, which crate `card` alone could give, and a number of a state is the words' business.
fn state_number(field: Field) -> i64
    ensures { result ≡ state_number field }
{
    match field {
        Field::Empty => 0,
        Field::Heard(_) => 1,
        Field::Read(_) => 2,
        Field::Confirmed(_) => 3,
    }
}

// Writes the two words of a field at a place.
fn put_field(words: &mut [i64], place: usize, field: Field)
    requires { place + 2 ≤ length words.old }
    ensures { words.new ≡ sets words.old place (field_words field) }
{
    words[place] = state_number(field);
    words[place + 1] = card::number_in(field);
}

// Writes a card into lent words.
pub fn to_words(card: &Card, words: &mut [i64])
    requires { length words.old ≡ word_count }
    ensures { words.new ≡ card_words card.now }
{
    for (i, field) in card.fields().iter().enumerate() {
        put_field(words, 2 * i, *field);
    }
    let latest = card.latest();
    words[LATEST] = latest.map_or(0, |l| l.field);
    put_field(words, LATEST + 1, latest.map_or(Field::Empty, |l| l.before));
}
