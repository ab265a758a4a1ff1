// The refusals of the whole book. A call answers `Result<.., Refusal>`; where it gives nothing but a refusal, `Result<(), Refusal>`.
#![tactic(auto)]

ghost use Rattle.std.specs.Prelude.{◌≡◌, ◌≤◌};
ghost use Rattle.refusal.specs.RefusalNumbers.{number_of, largest_number};

// Why a call is refused, in the order of the numbers.
#[derive(Clone, Copy, Debug, PartialEq, Eq)]
pub enum Refusal {
    // 1: a shot from a card on which some field is not confirmed.
    NotConfirmed,
    // 2: no such date, or not of the years 1976 to 2049.
    NoDate,
    // 3: an hour, minute or millisecond that the date does not have.
    NoTime,
    // 4: DUT1 out of range.
    NoDut1,
    // 5: latitude or longitude out of range.
    NoPosition,
    // 6: neither the Sun nor Polaris.
    NoBody,
    // 7: the body is below the horizon.
    BelowHorizon,
    // 8: the body is too near the zenith for an azimuth.
    NearZenith,
    // 9: no field has this number.
    NoField,
    // 10: a reading of an empty field.
    EmptyField,
    // 11: the text does not lie within the buffer from the place on.
    NoRoom,
    // 12: a confirming of a field that is not in the state read.
    NotRead,
    // 13: a number too large in magnitude to be heard.
    TooLarge,
    // 14: a program's line that is not of its form.
    Malformed,
    // 15: an angle that is not 0 to a turn less one unit.
    NoAngle,
    // 16: a list of results that is empty or too long.
    NoList,
    // 17: ΔT, which is ET − UT1, out of range.
    NoDeltaT,
    // 18: an undo where no hearing is left to undo.
    NothingToUndo,
    // 19: no edition of the Sun's series has this number.
    NoEdition,
}

// The number of a refusal, as `u64::from` gives it.
impl From<Refusal> for u64 {
    ghost from_gives = { λ refusal n. (n ≡ number_of refusal) × (n ≤ largest_number) };

    fn from(refusal: Refusal) -> u64 {
        match refusal {
            Refusal::NotConfirmed => 1,
            Refusal::NoDate => 2,
            Refusal::NoTime => 3,
            Refusal::NoDut1 => 4,
            Refusal::NoPosition => 5,
            Refusal::NoBody => 6,
            Refusal::BelowHorizon => 7,
            Refusal::NearZenith => 8,
            Refusal::NoField => 9,
            Refusal::EmptyField => 10,
            Refusal::NoRoom => 11,
            Refusal::NotRead => 12,
            Refusal::TooLarge => 13,
            Refusal::Malformed => 14,
            Refusal::NoAngle => 15,
            Refusal::NoList => 16,
            Refusal::NoDeltaT => 17,
            Refusal::NothingToUndo => 18,
            Refusal::NoEdition => 19,
        }
    }
}
