// The timer table's calls by value, made by lending: each holds the table in a local, lends the local to the call of timers_lent, and answers with what is then there.
#![tactic(auto)]

ghost use Rattle.std.specs.Prelude.{◌≡◌};
ghost use Rattle.timers.specs.Calls.{next_timeout_call, set_call, stop_call};

use timers::{TimerTable, TimersOut};
use values::{Moment, Timed};

pub fn set(t: TimerTable, timer: u64, at: Moment) -> TimersOut
    ensures { result ≡ set_call t timer at }
{
    let mut u = t;
    let answer = timers_lent::set(&mut u, timer, at);
    TimersOut { timers: u, answer }
}

pub fn stop(t: TimerTable, timer: u64) -> TimersOut
    ensures { result ≡ stop_call t timer }
{
    let mut u = t;
    let answer = timers_lent::stop(&mut u, timer);
    TimersOut { timers: u, answer }
}

pub fn next_timeout(t: TimerTable) -> Timed
    ensures { result ≡ next_timeout_call t }
{
    timers_lent::next_timeout(&t)
}
