// The table of the sine, data that stands once in the program.
#![tactic(auto)]

mod entries;

ghost use Rattle.std.specs.Prelude.{◌≡◌, ◌≤◌, ◌<◌};
ghost use Rattle.sine_table.specs.Table.{R, entry_at, entry_count};

pub use entries::{STEP, STEPS};

// The n-th entry of the table.
pub fn entry_at(n: usize) -> u64
    requires { n < entry_count }
    ensures { (result ≡ entry_at n) × (result ≤ R) }
{
    u64::from(entries::table()[n])
}
