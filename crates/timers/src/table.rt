// The table of a connection's timers.
ghost use Rattle.std.specs.Prelude.{◌≡◌};
ghost use Rattle.timers.specs.Calls.{out_of};
ghost use Rattle.timers.specs.Names.{timer_named};

use values::{Deadline, Done, Refusal};

// The Rust's timers: C gives their numbers, from 0 on.
#[derive(Clone, Copy, Debug, PartialEq, Eq)]
pub enum Timer {
    LossDetection,
    Ack,
    Pacer,
    Idle,
    Handshake,
    Draining,
    KeyDiscard,
    KeepAlive,
    PathChallenge,
}

impl TryFrom<u64> for Timer {
    type Error = Refusal;

    ghost try_from_gives = { λ n r. r ≡ timer_named n };

    fn try_from(number: u64) -> Result<Timer, Refusal> {
        match number {
            0 => Ok(Timer::LossDetection),
            1 => Ok(Timer::Ack),
            2 => Ok(Timer::Pacer),
            3 => Ok(Timer::Idle),
            4 => Ok(Timer::Handshake),
            5 => Ok(Timer::Draining),
            6 => Ok(Timer::KeyDiscard),
            7 => Ok(Timer::KeepAlive),
            8 => Ok(Timer::PathChallenge),
            _ => Err(Refusal::Malformed),
        }
    }
}

#[repr(C)]
#[derive(Clone, Copy)]
pub struct TimerTable {
    pub expires: [Deadline; 9],
}

// What a call that changes the table gives.
#[repr(C)]
#[derive(Clone, Copy)]
pub struct TimersOut {
    pub timers: TimerTable,
    pub answer: Done,
}

impl TimersOut {
    // The table that the call leaves: refused, the one that it found.
    pub fn of(found: TimerTable, left: Result<TimerTable, Refusal>) -> TimersOut
        ensures { result ≡ out_of found left }
    {
        match left {
            Ok(timers) => TimersOut {
                timers,
                answer: Done::from(Ok(())),
            },
            Err(refusal) => TimersOut {
                timers: found,
                answer: Done::from(Err(refusal)),
            },
        }
    }
}
