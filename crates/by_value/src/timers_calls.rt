ghost use Rattle.std.specs.Prelude.{◌≡◌};
ghost use Rattle.timers.specs.Runs as R;
ghost use Rattle.timers.specs.Calls.{fresh_call};

use timers::{TimerTable, TimersOut};
use values::{Flagged, Moment, Timed};

#[unsafe(no_mangle)]
pub extern "C" fn val_timers_fresh() -> TimerTable
    ensures { result ≡ fresh_call }
{
    timers::fresh()
}

#[unsafe(no_mangle)]
pub extern "C" fn val_timers_set(t: TimerTable, timer: u64, at: Moment) -> TimersOut
    ensures { R.Done result ≡ R.result t (R.Set timer at) }
{
    timers::set(t, timer, at)
}

#[unsafe(no_mangle)]
pub extern "C" fn val_timers_get(t: TimerTable, timer: u64) -> Timed
    ensures { R.ATime result ≡ R.result t (R.Get timer) }
{
    timers::get(t, timer)
}

#[unsafe(no_mangle)]
pub extern "C" fn val_timers_stop(t: TimerTable, timer: u64) -> TimersOut
    ensures { R.Done result ≡ R.result t (R.Stop timer) }
{
    timers::stop(t, timer)
}

#[unsafe(no_mangle)]
pub extern "C" fn val_timers_next_timeout(t: TimerTable) -> Timed
    ensures { R.ATime result ≡ R.result t R.NextTimeout }
{
    timers::next_timeout(t)
}

#[unsafe(no_mangle)]
pub extern "C" fn val_timers_is_expired(t: TimerTable, timer: u64, now: Moment) -> Flagged
    ensures { R.AFlag result ≡ R.result t (R.IsExpired timer now) }
{
    timers::is_expired(t, timer, now)
}

#[unsafe(no_mangle)]
pub extern "C" fn val_timers_clear(t: TimerTable) -> TimersOut
    ensures { R.Done result ≡ R.result t R.Clear }
{
    timers::clear(t)
}
