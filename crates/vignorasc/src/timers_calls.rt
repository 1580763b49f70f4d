// The published calls of the timers, over a state that the host lends: the answer is the call's answer, and the state is left as the call leaves it. What
// timers_lent has is called there.
ghost use Rattle.std.specs.Prelude.{◌≡◌};
ghost use Rattle.timers.specs.Runs as R;
ghost use Rattle.timers.specs.Calls.{fresh_call};

use timers::TimerTable;
use values::{Done, Flagged, Moment, Timed};

// A table with no timer set.
#[unsafe(no_mangle)]
pub extern "C" fn vig_timers_fresh() -> TimerTable
    ensures { result ≡ fresh_call }
{
    timers::fresh()
}

// Sets the timer's deadline.
#[unsafe(no_mangle)]
pub extern "C" fn vig_timers_set(t: &mut TimerTable, timer: u64, at: Moment) -> Done
    ensures { R.Done (record { timers = t.new; answer = result }) ≡ R.result t.old (R.Set timer at) }
{
    timers_lent::set(t, timer, at)
}

// The timer's deadline, if it is set.
#[unsafe(no_mangle)]
pub extern "C" fn vig_timers_get(t: &TimerTable, timer: u64) -> Timed
    ensures { R.ATime result ≡ R.result t.now (R.Get timer) }
{
    timers::get(*t, timer)
}

// The timer isn't set any more.
#[unsafe(no_mangle)]
pub extern "C" fn vig_timers_stop(t: &mut TimerTable, timer: u64) -> Done
    ensures { R.Done (record { timers = t.new; answer = result }) ≡ R.result t.old (R.Stop timer) }
{
    timers_lent::stop(t, timer)
}

// The least deadline that is set.
#[unsafe(no_mangle)]
pub extern "C" fn vig_timers_next_timeout(t: &TimerTable) -> Timed
    ensures { R.ATime result ≡ R.result t.now R.NextTimeout }
{
    timers_lent::next_timeout(t)
}

// Whether the timer is set, and its deadline is not after now.
#[unsafe(no_mangle)]
pub extern "C" fn vig_timers_is_expired(t: &TimerTable, timer: u64, moment: Moment) -> Flagged
    ensures { R.AFlag result ≡ R.result t.now (R.IsExpired timer moment) }
{
    timers::is_expired(*t, timer, moment)
}

// Every timer is stopped: the table is as a fresh one.
#[unsafe(no_mangle)]
pub extern "C" fn vig_timers_clear(t: &mut TimerTable) -> Done
    ensures { R.Done (record { timers = t.new; answer = result }) ≡ R.result t.old R.Clear }
{
    timers_lent::clear(t)
}
