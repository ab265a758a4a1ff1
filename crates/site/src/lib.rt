// Where the observer stands: the position that fields 8 and 9 of the card name. North and east are positive.
#![tactic(auto)]

ghost use Rattle.std.specs.Prelude.{◌≡◌};
ghost use Rattle.site.specs.Site.{is_site, position_of, located_values};

use refusal::Refusal;
use std::marker::Model;

// The units in 0.1 second of arc.
const TENTH: i64 = 1_000;

// Fields 8 and 9 of the card, in 0.1 second of arc.
#[derive(Clone, Copy, Debug, PartialEq, Eq)]
pub struct Site {
    pub latitude: i64,
    pub longitude: i64,
}

// The same two in units of 0.0001 second of arc, as the horizon takes them: small enough for its sums.
#[derive(Clone, Copy, Debug, PartialEq, Eq)]
pub struct Position {
    pub latitude: i64,
    pub longitude: i64,
}

impl Model for Position {
    ghost use Rattle.site.specs.Site.{Position, position_at};
    ghost use Rattle.site.specs.Sizes.{PositionSized};

    ghost Value = { Position };

    ghost view = { λ p. position_at p.latitude p.longitude };

    ghost invariant = { λ p. PositionSized (position_at p.latitude p.longitude) };

    ghost inverse = { λ p. record { latitude = p.latitude; longitude = p.longitude } };
}

// Whether a shot accepts two fields: a latitude to 89 degrees north or south, and any longitude, of which half a turn west is not one, as it
// is the meridian of half a turn east.
fn is_site(site: Site) -> bool
    ensures { result ≡ is_site site }
{
    exact::between(-3_204_000, site.latitude, 3_204_000)
        && exact::between(-6_479_999, site.longitude, 6_480_000)
}

// The position of any two numbers, or refusal 5.
pub fn position_of(site: Site) -> Result<Position, Refusal>
    ensures { located_values result ≡ position_of site }
{
    if !is_site(site) {
        return Err(Refusal::NoPosition);
    }
    Ok(Position {
        latitude: site.latitude * TENTH,
        longitude: site.longitude * TENTH,
    })
}
