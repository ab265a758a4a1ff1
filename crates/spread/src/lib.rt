// Of two lists of results, the one of smaller spread. Results are angles in units of 0.0001 second of arc.
#![tactic(auto)]

ghost use Rattle.std.specs.Prelude.{◌≡◌, ◌<◌, length};
ghost use Rattle.spread.specs.Spread.{is_list, choice_values, choice, HandsBack};
ghost use Rattle.spread.specs.Parts.{spread_of};

use refusal::Refusal;

// The most results of a list.
const MOST: usize = 64;

// Which of two lists is handed back, whole.
#[derive(Clone, Copy, Debug, PartialEq, Eq)]
pub enum Side {
    First,
    Second,
}

// Whether a list is neither empty nor too long.
fn is_list(results: &[i64]) -> bool
    ensures { result ≡ is_list results.now }
{
    (1..=MOST).contains(&results.len())
}

// The largest result less the smallest, in one pass, where each is an angle. All results lie between these two, so that all are angles
// where these are.
fn spread_of(results: &[i64]) -> Option<i64>
    requires { 0 < length results.now }
    ensures { result ≡ spread_of results.now }
{
    let mut most = results[0];
    let mut least = results[0];
    for &a in &results[1..] {
        most = most.max(a);
        least = least.min(a);
    }
    if exact::is_reduced(least) && exact::is_reduced(most) {
        Some(most - least)
    } else {
        None
    }
}

// Which of two lists has the smaller spread, the first on a tie: refusal 16 for either list, then 15 for a result of either.
pub fn choose(first: &[i64], second: &[i64]) -> Result<Side, Refusal>
    ensures { choice_values first.now second.now result ≡ choice first.now second.now }
{
    if !is_list(first) || !is_list(second) {
        return Err(Refusal::NoList);
    }
    let a = spread_of(first).ok_or(Refusal::NoAngle)?;
    let b = spread_of(second).ok_or(Refusal::NoAngle)?;
    Ok(if b < a { Side::Second } else { Side::First })
}

// The list of smaller spread itself, as the caller lent it, or the empty front of the first; beside it the refusal's number, 0 for none.
// Kept: no `Result<&[i64], Refusal>`, since a refusal too gives a slice, the empty one at the place of the first list.
pub fn chosen<'a>(first: &'a [i64], second: &'a [i64], refusal: &mut u64) -> &'a [i64]
    ensures hands_back { HandsBack (choice first.now second.now) first.entry second.entry result }
    ensures refusal_after { refusal.new ≡ (choice first.now second.now).refusal }
{
    match choose(first, second) {
        Ok(Side::First) => {
            *refusal = 0;
            first
        }
        Ok(Side::Second) => {
            *refusal = 0;
            second
        }
        Err(reason) => {
            *refusal = u64::from(reason);
            &first[..0]
        }
    }
}
