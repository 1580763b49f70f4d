// The timer table, lent in place: set, stop and clear take the value out, make the published call by value, and put the table that it answers back. On a
// refusal that is the table as it was. For hosts: a caller in Rattle uses the calls by value, since a caller of these is a proof by hand; `timers_by_lending`
// has three, for the comparison of the two forms.
#![tactic(auto)]

ghost use Rattle.std.specs.Prelude.{[], ◌≡◌};
ghost use Rattle.timers.specs.Calls.{clear_call, next_timeout_call, set_call, stop_call};

use timers::TimerTable;
use values::{Done, Moment, Timed};

pub fn set(t: &mut TimerTable, timer: u64, at: Moment) -> Done
    ensures { record { timers = t.new; answer = result } ≡ set_call t.old timer at }
{
    let a = timers::set(*t, timer, at);
    *t = a.timers;
    a.answer
}

pub fn stop(t: &mut TimerTable, timer: u64) -> Done
    ensures { record { timers = t.new; answer = result } ≡ stop_call t.old timer }
{
    let a = timers::stop(*t, timer);
    *t = a.timers;
    a.answer
}

// The fresh table, put in place.
pub fn clear(t: &mut TimerTable) -> Done
    ensures { record { timers = t.new; answer = result } ≡ clear_call t.old }
{
    let a = timers::clear(*t);
    *t = a.timers;
    a.answer
}

// Beside the three that write in place, one that reads.
pub fn next_timeout(t: &TimerTable) -> Timed
    ensures { result ≡ next_timeout_call t.now }
{
    timers::next_timeout_of(t)
}
