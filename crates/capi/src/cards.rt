// A card in words that the caller lends, and the calls on it.
ghost use Rattle.std.specs.Prelude.{◌≡◌};
ghost use Rattle.fieldbook.specs.Shot.{ShotReduced};
ghost use Rattle.lent_card.specs.LentCard.{words_values, read_words_values, fresh_words, hear_words, confirm_words, undo_words, read_words, buffer_words};
ghost use Rattle.capi.specs.Interface.{shot_answer_values, card_shot};

use crate::shots;
use crate::shots::ShotAnswer;
use fieldbook::Options;
use lent_card::ReadAnswer;

// Makes the words a fresh card.
#[unsafe(no_mangle)]
pub extern "C" fn fieldbook_card_fresh(words: &mut [i64]) -> u64
    ensures { words_values result words.new ≡ fresh_words words.old }
{
    lent_card::fresh(words)
}

// Hears a number into a field.
#[unsafe(no_mangle)]
pub extern "C" fn fieldbook_card_hear(words: &mut [i64], field: i64, number: i64) -> u64
    ensures { words_values result words.new ≡ hear_words words.old field number }
{
    lent_card::hear(words, field, number)
}

// Confirms a field that was read out.
#[unsafe(no_mangle)]
pub extern "C" fn fieldbook_card_confirm(words: &mut [i64], field: i64) -> u64
    ensures { words_values result words.new ≡ confirm_words words.old field }
{
    lent_card::confirm(words, field)
}

// Undoes the latest accepted hearing.
#[unsafe(no_mangle)]
pub extern "C" fn fieldbook_card_undo(words: &mut [i64]) -> u64
    ensures { words_values result words.new ≡ undo_words words.old }
{
    lent_card::undo(words)
}

// Reads a field out, into a buffer from a place on.
#[unsafe(no_mangle)]
pub extern "C" fn fieldbook_card_read(
    words: &mut [i64],
    field: i64,
    buffer: &mut [u8],
    place: usize,
) -> ReadAnswer
    ensures words_after { read_words_values result words.new ≡ read_words words.old field buffer.old place }
    ensures buffer_after { buffer.new ≡ buffer_words words.old field buffer.old place }
{
    lent_card::read(words, field, buffer, place)
}

// The shot from the card, with options.
#[unsafe(no_mangle)]
pub extern "C" fn fieldbook_card_shot(words: &[i64], options: Options) -> ShotAnswer
    ensures { (shot_answer_values result ≡ card_shot words.now options) × ShotReduced (shot_answer_values result) }
{
    match card_words::from_words(words) {
        Some(card) => shots::answer_of(fieldbook::shot_from_card(&card, options)),
        None => shots::refused(lent_card::NO_CARD),
    }
}
