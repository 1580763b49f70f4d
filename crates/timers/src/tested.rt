// What has passed the test: the steps of the calls take it.
ghost use Rattle.std.specs.Prelude.{◌≡◌, true, false, MatchResult};
ghost use Rattle.timers.specs.Timers.{well_formed};

use crate::formed;
use crate::table::TimerTable;
use values::Refusal;

// A table that is well formed.
#[derive(Clone, Copy)]
pub struct FormedTimers<'a> {
    pub table: &'a TimerTable,
    pub ghost well: { well_formed table.now ≡ true },
}

pub fn checked(table: &TimerTable) -> Result<FormedTimers<'_>, Refusal>
    ensures { MatchResult result (λ f. (f.table.now ≡ table.now) × (well_formed table.now ≡ true)) (λ e. (e ≡ Refusal.Malformed) × (well_formed table.now ≡ false)) }
{
    values::form(formed::formed(table))?;
    Ok(FormedTimers { table })
}
