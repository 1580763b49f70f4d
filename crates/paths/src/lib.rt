// The paths of a QUIC endpoint, after the Rust's path.rs. calls.rt has the published calls; what a call does to a well-formed state stands in the
// modules beside it. Every contract is an equation with the definition of `paths_rules` on the view of the state (specs/Reading.antt).
#![tactic(auto)]

mod acts;
mod answers;
mod calls;
mod changes;
mod search;
mod steps;

pub use acts::{
    dec_anti_ampl_limit_at, inc_anti_ampl_limit_at, initiate_path_chal_at, mark_verified_at,
    on_path_chal_received_at, on_path_chal_sent_at, on_path_resp_received_at, pop_recv_chal_at,
    set_active_at, set_dcid_seq_at, set_scid_seq_at,
};
pub use answers::{
    AddressAnswer, DoneOut, FoundAnswer, InsertedOut, PathAnswer, PathParts, PoppedOut,
    PoppedParts, RespondedAnswer, RespondedOut, RespondedParts,
};
pub use calls::{
    active, cmp_anti_ampl_limit, dec_anti_ampl_limit, enable_multipath, fresh, get, get_active,
    get_path_id, inc_anti_ampl_limit, initiate_path_chal, insert_path, len, local_addr, mark_ping,
    mark_verified, min_path_chal_timer, need_expand_padding_frames, need_send_validation_frames,
    on_path_chal_received, on_path_chal_sent, on_path_chal_timeout, on_path_resp_received,
    path_chal_initiated, pop_recv_chal, remote_addr, set_active, set_dcid_seq, set_scid_seq, state,
    validated,
};
