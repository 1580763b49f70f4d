// The connection IDs of a QUIC endpoint, after the Rust's cid.rs. calls.rt has the published calls; acts.rt has those that change the state, as what they
// change; what a call does to a well-formed state stands in the modules beside them. Every contract is an equation with the definition of `ids_rules` on the
// view of the state (specs/Reading.antt), or with one on a table or a queue (specs/Acts.antt).
#![tactic(auto)]

mod acts;
mod adds;
mod answers;
mod calls;
mod forms;
mod issues;
mod marks;
mod reads;
mod starts;

pub use acts::{
    add_dcid_at, add_scid_at, mark_dcid_to_retire_at, mark_dcid_used_at, mark_scid_to_advertise_at,
    mark_scid_used_at, retire_scid_at, set_initial_dcid_at, set_scid_limit_at,
};
pub use answers::{
    DoneOut, FoundAnswer, FrameAnswer, FreedOut, FreedParts, InitialParts, IssuedOut, IssuedParts,
    ItemAnswer, LimitParts, QueueParts, RetiredAnswer, RetiredOut, RetiredParts, TableParts,
};
pub use calls::{
    add_dcid, add_scid, create_new_connection_id_frame, dcid_at, dcid_count, find_scid, fresh,
    get_dcid, get_scid, lowest_unused_dcid_seq, mark_dcid_to_retire, mark_dcid_used,
    mark_scid_to_advertise, mark_scid_used, need_send_cid_control_frames, next_dcid_to_retire,
    next_scid_to_advertise, retire_scid, scid_at, scid_count, set_initial_dcid, set_scid_limit,
    unused_dcids, unused_scids, zero_length_dcid, zero_length_scid,
};
