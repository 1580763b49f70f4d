// What the calls do to a table that is well formed, once the arguments have their forms: in place, where they change it.
ghost use Rattle.std.specs.Prelude.{◌≡◌, true};
ghost use Rattle.timers.specs.Timers.{expired, get_timer, next_timeout, set_timer, stop_timer, timers_of, view, well_formed};
ghost use Rattle.timers.specs.Names.{number_of};
ghost use Rattle.values.specs.Time.{moved_of};

use crate::table::{Timer, TimerTable};
use crate::tested::FormedTimers;
use values::{Deadline, Moment};

pub fn set_step(t: &mut TimerTable, timer: Timer, at: Moment)
    requires { well_formed t.old ≡ true }
    ensures { t.new ≡ timers_of (set_timer (number_of timer) at.us (view t.old)) }
{
    t.expires[timer as usize] = Deadline::from(Some(at));
}

pub fn stop_step(t: &mut TimerTable, timer: Timer)
    requires { well_formed t.old ≡ true }
    ensures { t.new ≡ timers_of (stop_timer (number_of timer) (view t.old)) }
{
    t.expires[timer as usize] = Deadline::from(None);
}

pub fn get_step(t: FormedTimers<'_>, timer: Timer) -> Option<Moment>
    ensures { result ≡ moved_of (get_timer (number_of timer) (view t.entry.table.now)) }
{
    t.table.expires[timer as usize].moment()
}

pub fn next_step(t: FormedTimers<'_>) -> Option<Moment>
    ensures { result ≡ moved_of (next_timeout (view t.entry.table.now)) }
{
    t.table.expires.iter().filter_map(|d| d.moment()).min()
}

pub fn expired_step(t: FormedTimers<'_>, timer: Timer, now: Moment) -> bool
    ensures { result ≡ expired (number_of timer) now.us (view t.entry.table.now) }
{
    get_step(t, timer).is_some_and(|at| at <= now)
}
