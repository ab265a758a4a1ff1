// The pointing: the azimuth of a reference mark, from a shot of a body and the horizontal angle between the two.
#![tactic(auto)]

ghost use Rattle.std.specs.Prelude.{◌≡◌};
ghost use Rattle.fieldbook.specs.Shot.{shot_values, ShotReduced};
ghost use Rattle.pointing.specs.Pointing.{pointing_values, MarkReduced, pointed, pointing, pointing_from_card};

use card::Card;
use fieldbook::{Options, Query, ShotAngles};
use refusal::Refusal;

// The azimuth of the mark, from an answered shot of the body and the horizontal angle, clockwise from the mark to the body, any number.
fn pointed(a: ShotAngles, angle: i64) -> Result<u64, Refusal>
    requires { ShotReduced (shot_values (Ok a)) }
    ensures { (pointing_values result ≡ pointed (shot_values (Ok a)) angle) × MarkReduced (pointing_values result) }
{
    if !exact::is_reduced(angle) {
        return Err(Refusal::NoAngle);
    }
    Ok(exact::reduced_bounded(a.azimuth as i64 - angle))
}

// The pointing with plain numbers, any numbers and options: the azimuth of the mark, in units of 0.0001 second of arc from north
// clockwise.
pub fn pointing(query: Query, angle: i64) -> Result<u64, Refusal>
    ensures { (pointing_values result ≡ pointing query angle) × MarkReduced (pointing_values result) }
{
    let a = fieldbook::shot(query)?;
    pointed(a, angle)
}

// The pointing from a card, with any options.
pub fn pointing_from_card(card: &Card, options: Options, angle: i64) -> Result<u64, Refusal>
    ensures { (pointing_values result ≡ pointing_from_card card.now options angle) × MarkReduced (pointing_values result) }
{
    let a = fieldbook::shot_from_card(card, options)?;
    pointed(a, angle)
}
