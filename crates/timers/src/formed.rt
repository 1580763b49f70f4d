// docs/RULES.md, "Well-formed timers".
ghost use Rattle.std.specs.Prelude.{◌≡◌};
ghost use Rattle.timers.specs.Timers.{well_formed};

use crate::table::TimerTable;

// All nine are tested whatever the first ones are, so that the loop is unrolled without a branch.
pub fn formed(t: &TimerTable) -> bool
    ensures { result ≡ well_formed t.now }
{
    t.expires
        .iter()
        .fold(true, |ok, d| ok & values::deadline_formed(*d))
}
