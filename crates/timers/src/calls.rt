// The published calls, in the order of the Rust's TimerTable, and `clear`. Each tests the table and its arguments first: what is not of its form is refused
// with 1, and then nothing is changed. Beside each but the first and the last stands what it does as a Result, in place where
// it changes the table.
// C gives a timer by its number.
ghost use Rattle.std.specs.Prelude.{◌≡◌};
ghost use Rattle.values.specs.Results.{done_of, flagged_of, timed_of};
ghost use Rattle.timers.specs.Calls.{clear_call, fresh_call, get_call, is_expired_call, next_timeout_call, set_call, stop_call};

use crate::table::{Timer, TimerTable, TimersOut};
use crate::{steps, tested};
use values::limits::TIMER_SLOTS;
use values::{Deadline, Done, Flagged, Moment, Refusal, Timed};

// A table with no timer set.
pub fn fresh() -> TimerTable
    ensures { result ≡ fresh_call }
{
    TimerTable {
        expires: [Deadline::from(None); TIMER_SLOTS],
    }
}

fn try_set(t: &mut TimerTable, timer: u64, at: Moment) -> Result<(), Refusal>
    ensures { record { timers = t.new; answer = done_of result } ≡ set_call t.old timer at }
{
    tested::checked(t)?;
    values::form(values::moment_formed(at))?;
    steps::set_step(t, Timer::try_from(timer)?, at);
    Ok(())
}

// Sets the timer's deadline.
pub fn set(t: TimerTable, timer: u64, at: Moment) -> TimersOut
    ensures { result ≡ set_call t timer at }
{
    let mut timers = t;
    let answer = Done::from(try_set(&mut timers, timer, at));
    TimersOut { timers, answer }
}

fn try_get(t: &TimerTable, timer: u64) -> Result<Option<Moment>, Refusal>
    ensures { timed_of result ≡ get_call t.now timer }
{
    Ok(steps::get_step(tested::checked(t)?, Timer::try_from(timer)?))
}

// The timer's deadline, if it is set.
pub fn get(t: TimerTable, timer: u64) -> Timed
    ensures { result ≡ get_call t timer }
{
    Timed::from(try_get(&t, timer))
}

fn try_stop(t: &mut TimerTable, timer: u64) -> Result<(), Refusal>
    ensures { record { timers = t.new; answer = done_of result } ≡ stop_call t.old timer }
{
    tested::checked(t)?;
    steps::stop_step(t, Timer::try_from(timer)?);
    Ok(())
}

// The timer isn't set any more.
pub fn stop(t: TimerTable, timer: u64) -> TimersOut
    ensures { result ≡ stop_call t timer }
{
    let mut timers = t;
    let answer = Done::from(try_stop(&mut timers, timer));
    TimersOut { timers, answer }
}

fn try_next_timeout(t: &TimerTable) -> Result<Option<Moment>, Refusal>
    ensures { timed_of result ≡ next_timeout_call t.now }
{
    Ok(steps::next_step(tested::checked(t)?))
}

// The least deadline that is set, of a table that is lent: it is read where it stands.
pub fn next_timeout_of(t: &TimerTable) -> Timed
    ensures { result ≡ next_timeout_call t.now }
{
    Timed::from(try_next_timeout(t))
}

// The least deadline that is set.
pub fn next_timeout(t: TimerTable) -> Timed
    ensures { result ≡ next_timeout_call t }
{
    Timed::from(try_next_timeout(&t))
}

fn try_is_expired(t: &TimerTable, timer: u64, now: Moment) -> Result<bool, Refusal>
    ensures { flagged_of result ≡ is_expired_call t.now timer now }
{
    let f = tested::checked(t)?;
    values::form(values::moment_formed(now))?;
    Ok(steps::expired_step(f, Timer::try_from(timer)?, now))
}

// Whether the timer is set, and its deadline is not after now.
pub fn is_expired(t: TimerTable, timer: u64, now: Moment) -> Flagged
    ensures { result ≡ is_expired_call t timer now }
{
    Flagged::from(try_is_expired(&t, timer, now))
}

// Every timer is stopped: the table is as a fresh one. Not in the Rust, whose table is dropped with its connection; for a table that is lent in place.
pub fn clear(t: TimerTable) -> TimersOut
    ensures { result ≡ clear_call t }
{
    if let Err(refusal) = tested::checked(&t) {
        return TimersOut {
            timers: t,
            answer: Done::from(Err(refusal)),
        };
    }
    TimersOut {
        timers: fresh(),
        answer: Done::from(Ok(())),
    }
}
