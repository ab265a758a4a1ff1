// The card of spoken fields. A number counts only after it was heard, read out and confirmed. A refused call leaves the card as it was.
#![tactic(auto)]

ghost use Rattle.std.specs.Prelude.{◌≡◌, ◌<◌, ◌^◌, nat_abs, IfOk};
ghost use Rattle.card.specs.Fields.{number_held, number_in, field_count, is_field, index_of, field_of, from_parts, fresh_card, fresh_with_dut1_assumed_zero};
ghost use Rattle.card.specs.Calls.{card_values, read_values, hear, confirm, undo, read_state, read, buffer_after};
ghost use Rattle.card.specs.Confirmed.{confirmed_values, confirmed_numbers};

use refusal::Refusal;

// How many fields a card has.
pub const FIELDS: usize = 11;

// The index of DUT1 among them: one less than its number.
const DUT1: usize = 6;

// The largest magnitude of a number that can be heard: seven digits, in the units of its field.
pub const LARGEST_HEARD: i64 = 9_999_999;

// The state of a field. All but an empty one hold a number.
#[derive(Clone, Copy, Debug, PartialEq, Eq)]
pub enum Field {
    Empty,
    Heard(i64),
    Read(i64),
    Confirmed(i64),
}

// What an undo puts back: the latest accepted hearing was for the field of this number, and this is what the field was before it.
#[derive(Clone, Copy, Debug, PartialEq, Eq)]
pub struct Latest {
    pub field: i64,
    pub before: Field,
}

// A card is made by one of the two starts and changed by the calls alone: its fields are not public, so that no caller writes a confirmed
// number into it, or into what an undo puts back. (`from_parts` is for crate `card_words` alone.)
#[derive(Clone, Copy, Debug, PartialEq, Eq)]
pub struct Card {
    fields: [Field; FIELDS],
    latest: Option<Latest>,
}

// Whether a field has this number.
pub fn is_field(field: i64) -> bool
    ensures { result ≡ is_field field }
{
    exact::between(1, field, FIELDS as i64)
}

// Where the field of this number stands on the card: one less than the number. Refusal 9, where no field has it.
fn index_of(field: i64) -> Result<usize, Refusal>
    ensures value { result ≡ index_of field }
    ensures within { IfOk result (λ i. i < field_count) }
{
    if !is_field(field) {
        return Err(Refusal::NoField);
    }
    Ok(field as usize - 1)
}

// The number that a field holds, as a number alone: 0 of an empty one, which no answer uses.
pub fn number_in(field: Field) -> i64
    ensures { result ≡ number_in field }
{
    field.number().unwrap_or(0)
}

impl Field {
    // The number that a field holds. An empty one holds none.
    pub fn number(self) -> Option<i64>
        ensures { result ≡ number_held self }
    {
        match self {
            Field::Empty => None,
            Field::Heard(n) | Field::Read(n) | Field::Confirmed(n) => Some(n),
        }
    }

    // The field after it was read out.
    fn read_out(self) -> Field
        ensures { result ≡ read_state self }
    {
        match self {
            Field::Heard(n) => Field::Read(n),
            _ => self,
        }
    }
}

impl Card {
    // A fresh card: every field is empty, and there is nothing to undo.
    pub fn fresh() -> Card
        ensures { result ≡ fresh_card }
    {
        Card {
            fields: [Field::Empty; FIELDS],
            latest: None,
        }
    }

    // An older start, for programs elsewhere that rely on it: DUT1 stands confirmed as 0 ms, though nobody has said so, and every other field is empty.
    // Nothing of the book starts from it (compare/assumed-dut1).
    pub fn fresh_with_dut1_assumed_zero() -> Card
        ensures { result ≡ fresh_with_dut1_assumed_zero }
    {
        let mut card = Card::fresh();
        card.fields[DUT1] = Field::Confirmed(0);
        card
    }

    // A card of its parts, whatever they are. Only crate `card_words` may use it, for a card that somebody else keeps
    // (compare/restored-card).
    pub fn from_parts(fields: [Field; FIELDS], latest: Option<Latest>) -> Card
        ensures { result ≡ from_parts fields latest }
    {
        Card { fields, latest }
    }

    // The fields, in the order of their numbers.
    pub fn fields(&self) -> &[Field; FIELDS]
        ensures { result.now ≡ self.now.fields }
    {
        &self.fields
    }

    // What an undo puts back, if there is something to undo.
    pub fn latest(&self) -> Option<Latest>
        ensures { result ≡ self.now.latest }
    {
        self.latest
    }

    // The state of a field; a number that no field has is as good as an empty field.
    #[tactic(auto, unfolding(crate::specs::Fields::field_of))]
    pub fn field_of(&self, field: i64) -> Field
        ensures { result ≡ field_of self.now field }
    {
        index_of(field).map_or(Field::Empty, |i| self.fields[i])
    }

    // Hears a number into a field, whatever stood there; that is kept for an undo. Refusals 9, 13.
    #[tactic(auto, unfolding(crate::specs::Fields::field_of))]
    pub fn hear(&mut self, field: i64, number: i64) -> Result<(), Refusal>
        ensures { card_values result self.new ≡ hear self.old field number }
    {
        let i = index_of(field)?;
        if !exact::between(-LARGEST_HEARD, number, LARGEST_HEARD) {
            return Err(Refusal::TooLarge);
        }
        let before = self.fields[i];
        self.fields[i] = Field::Heard(number);
        self.latest = Some(Latest { field, before });
        Ok(())
    }

    // Reads a field out: writes its text from a place of the buffer on, and says how many bytes it takes; a heard field is read from then on.
    // Refusals 9, 10, 11. The range of the number tells a caller how much room is always enough.
    #[tactic(auto, unfolding(crate::specs::Fields::field_of))]
    pub fn read(&mut self, field: i64, buf: &mut [u8], place: usize) -> Result<usize, Refusal>
        ensures result_value { read_values result self.new ≡ read self.old field buf.old place }
        ensures buf_after { buf.new ≡ buffer_after self.old field buf.old place }
        ensures field_bound { nat_abs (number_in (field_of self.old field)) < 2 ^ 64 }
    {
        let at = index_of(field)?;
        let number = self.fields[at].number().ok_or(Refusal::EmptyField)?;
        let length = digits::write_at(buf, place, number).ok_or(Refusal::NoRoom)?;
        self.fields[at] = self.fields[at].read_out();
        Ok(length)
    }

    // Confirms a field that was read out. Refusals 9, 12.
    #[tactic(auto, unfolding(crate::specs::Fields::field_of))]
    pub fn confirm(&mut self, field: i64) -> Result<(), Refusal>
        ensures { card_values result self.new ≡ confirm self.old field }
    {
        let i = index_of(field)?;
        let Field::Read(number) = self.fields[i] else {
            return Err(Refusal::NotRead);
        };
        self.fields[i] = Field::Confirmed(number);
        Ok(())
    }

    // Undoes the latest accepted hearing: its field is again what it was before, state and number, whatever was read or confirmed since, and every
    // other field stays. Then there is nothing to undo until the next accepted hearing. Refusal 18. (A hearing keeps only numbers that a field
    // has. The contract is for every card, so this is tested.)
    pub fn undo(&mut self) -> Result<(), Refusal>
        ensures { card_values result self.new ≡ undo self.old }
    {
        let latest = self.latest.ok_or(Refusal::NothingToUndo)?;
        let i = index_of(latest.field).or(Err(Refusal::NothingToUndo))?;
        self.fields[i] = latest.before;
        self.latest = None;
        Ok(())
    }

    // The numbers that a shot from the card works on, in the order of the fields and in their units. Refusal 1, where a field is not confirmed.
    pub fn confirmed_numbers(&self) -> Result<[i64; FIELDS], Refusal>
        ensures { confirmed_values result ≡ confirmed_numbers self.now }
    {
        let mut numbers = [0; FIELDS];
        for (i, field) in self.fields.iter().enumerate() {
            let Field::Confirmed(number) = *field else {
                return Err(Refusal::NotConfirmed);
            };
            numbers[i] = number;
        }
        Ok(numbers)
    }
}
