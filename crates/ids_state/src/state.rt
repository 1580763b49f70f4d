// The Rust's ConnectionIdMgr.
use tables::{Queue, Table};

#[repr(C)]
#[derive(Clone, Copy)]
pub struct Ids {
    // The source IDs, which we issued, and the destination IDs, which the peer issued.
    pub scids: Table,
    pub dcids: Table,
    // How many items the source table may hold. Of the destination table it is 2 * dcid_limit - 1.
    pub scid_capacity: usize,
    // The most destination IDs that we store, and the most source IDs that the peer allows us.
    pub dcid_limit: u64,
    pub scid_limit: u64,
    // The zero-length marks.
    pub zero_length_scid: bool,
    pub zero_length_dcid: bool,
    // The next source sequence.
    pub next_scid_seq: u64,
    // Our own Retire Prior To, and the largest of the peer.
    pub retire_prior_to: u64,
    pub largest_peer_retire_prior_to: u64,
    // The source sequences to announce, and the destination sequences to retire.
    pub scids_to_advertise: Queue,
    pub dcids_to_retire: Queue,
}
