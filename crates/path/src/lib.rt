// One path, after the Rust's `impl Path`: what each event does to it. A result is the one state of the path that the definition gives.
#![tactic(auto)]

mod chals;
mod credit;
mod fields;
mod responses;
mod sends;
mod starts;
mod states;
mod tests;
mod timeouts;

pub use chals::{due, popped, received, waiting_front};
pub use credit::{gained, spent};
pub use fields::{initiated, ping_in_use, pinged, verified, with_active, with_dcid, with_scid};
pub use responses::{Answer, answered};
pub use sends::{sending, sent};
pub use starts::{first_path, new_path};
pub use states::PathState;
pub use tests::{
    allowed, in_use, is_validated, listed_as, needs_frames, needs_padding, stays_listed, unused,
};
pub use timeouts::{overdue, timed_out};
