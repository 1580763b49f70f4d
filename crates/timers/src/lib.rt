// The nine timers of a connection, after the Rust's timer.rs. calls.rt has the published calls.
#![tactic(auto)]

mod calls;
mod formed;
mod steps;
mod table;
mod tested;

pub use calls::{clear, fresh, get, is_expired, next_timeout, next_timeout_of, set, stop};
pub use table::{Timer, TimerTable, TimersOut};
