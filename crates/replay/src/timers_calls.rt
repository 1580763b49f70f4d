// The calls 10 to 16. Those that are lent in place too are made both ways: a line says so where the two forms differ, and no answer line looks like it.
use crate::record::Record;
use crate::text::Page;
use crate::{answers, digest};
use timers::{TimerTable, TimersOut};
use values::{Moment, Timed};

// What a call gives by value; nothing, where the lent form gave something else.
fn agreed(o: TimersOut, lent: TimersOut) -> Option<TimersOut> {
    let same = (digest::of_timers(&o.timers) == digest::of_timers(&lent.timers))
        & (o.answer.refusal == lent.answer.refusal);
    if same { Some(o) } else { None }
}

fn same_time(a: Timed, b: Timed) -> bool {
    (a.refusal == b.refusal) & (a.deadline.set == b.deadline.set) & (a.deadline.at == b.deadline.at)
}

fn agreed_time(a: Timed, lent: Timed) -> Option<Timed> {
    if same_time(a, lent) { Some(a) } else { None }
}

// The line up to the digest, and the table after the call.
fn done(o: TimersOut, call: u8, page: &mut Page<'_>) -> TimerTable {
    page.head(call, o.answer.refusal);
    o.timers
}

// The calls that only read: the line up to the digest; nothing, where the two forms differ.
fn fields(t: TimerTable, r: &Record, page: &mut Page<'_>) -> Option<()> {
    let call = r.call;
    match call {
        0x13 => answers::timed(timers::get(t, r.n0), call, page),
        0x14 => {
            let a = agreed_time(timers::next_timeout(t), timers_by_lending::next_timeout(t))?;
            answers::timed(a, call, page);
        }
        _ => answers::flagged(timers::is_expired(t, r.n0, Moment { us: r.n1 }), call, page),
    }
    Some(())
}

// The calls that begin or change the table; any other only reads.
fn called(t: &mut TimerTable, r: &Record, page: &mut Page<'_>) -> Option<()> {
    let call = r.call;
    let m = Moment { us: r.n1 };
    *t = match call {
        0x10 => {
            page.head(call, 0);
            timers::fresh()
        }
        0x11 => {
            let o = agreed(
                timers::set(*t, r.n0, m),
                timers_by_lending::set(*t, r.n0, m),
            )?;
            done(o, call, page)
        }
        0x12 => {
            let o = agreed(timers::stop(*t, r.n0), timers_by_lending::stop(*t, r.n0))?;
            done(o, call, page)
        }
        0x16 => done(timers::clear(*t), call, page),
        _ => return fields(*t, r, page),
    };
    Some(())
}

pub fn line(t: &mut TimerTable, r: &Record, page: &mut Page<'_>) {
    match called(t, r, page) {
        Some(()) => page.end(digest::of_timers(t)),
        None => page.text("the lent form differs\n"),
    }
}
