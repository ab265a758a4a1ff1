// The choice: of two lists of results, the one of smaller spread.
ghost use Rattle.std.specs.Prelude.{◌≡◌};
ghost use Rattle.spread.specs.Spread.{choice};
ghost use Rattle.capi.specs.Interface.{choice_answer_values};

use spread::Side;

// What a choice answers, laid out as in C: the refusal's number, 0 for none, which list has the smaller spread, 1 or 2, and how many
// results it has. With a refusal it is list 1 and none.
#[repr(C)]
#[derive(Clone, Copy, Debug, PartialEq, Eq)]
pub struct ChoiceAnswer {
    pub refusal: u64,
    pub list: u64,
    pub count: u64,
}

// The choice of two lists lent by the caller, which come from C as a pointer and a count each, and are only read.
#[unsafe(no_mangle)]
pub extern "C" fn fieldbook_choice(first: &[i64], second: &[i64]) -> ChoiceAnswer
    ensures { choice_answer_values result ≡ choice first.now second.now }
{
    match spread::choose(first, second) {
        Ok(Side::First) => ChoiceAnswer {
            refusal: 0,
            list: 1,
            count: first.len() as u64,
        },
        Ok(Side::Second) => ChoiceAnswer {
            refusal: 0,
            list: 2,
            count: second.len() as u64,
        },
        Err(refusal) => ChoiceAnswer {
            refusal: u64::from(refusal),
            list: 1,
            count: 0,
        },
    }
}
