// The paths of a connection: 8 places, of which the first `count` hold paths; a path's id is its place. What is absent holds zeros. The names are the Rust's.
ghost use Rattle.std.specs.Prelude.{◌≡◌};
ghost use Rattle.paths_state.specs.Formed.{zero_path, zero_paths};

use challenges::{Received, Sent};
use values::limits::{IP_LEN, PATH_SLOTS};
use values::{Address, FourTuple};

// `has_scid` and `scid_seq`, `has_dcid` and `dcid_seq` are Options as C sees them, and `state` is the rank of path's PathState: a host may lend any number.
// `listed`: the path is the one that its pair names, as in the Rust's map from pairs to ids. The wide fields come first and the flags last, so that the
// compiler can test several at a time.
#[repr(C)]
#[derive(Clone, Copy)]
pub struct Path {
    pub pair: FourTuple,
    pub recv_chals: Received,
    pub sent_chals: Sent,
    pub max_datagram_size: u64,
    pub scid_seq: u64,
    pub dcid_seq: u64,
    pub lost_chal: u64,
    pub max_challenge_size: u64,
    pub anti_ampl_limit: u64,
    pub state: u8,
    pub has_scid: bool,
    pub has_dcid: bool,
    pub active: bool,
    pub need_send_challenge: bool,
    pub verified_peer_address: bool,
    pub peer_verified_local_address: bool,
    pub need_send_ping: bool,
    pub listed: bool,
}

#[repr(C)]
#[derive(Clone, Copy)]
pub struct Paths {
    pub items: [Path; 8],
    pub count: usize,
    pub max_paths: u64,
    pub anti_ampl_factor: u64,
    pub is_multipath: bool,
    pub is_server: bool,
}

pub fn no_path() -> Path
    ensures { result ≡ zero_path }
{
    let nowhere = Address {
        ip: [0; IP_LEN],
        flow: 0,
        scope: 0,
        port: 0,
        kind: 0,
    };
    Path {
        pair: FourTuple {
            local: nowhere,
            remote: nowhere,
        },
        recv_chals: challenges::no_received(),
        sent_chals: challenges::no_sent(),
        max_datagram_size: 0,
        scid_seq: 0,
        dcid_seq: 0,
        lost_chal: 0,
        max_challenge_size: 0,
        anti_ampl_limit: 0,
        state: 0,
        has_scid: false,
        has_dcid: false,
        active: false,
        need_send_challenge: false,
        verified_peer_address: false,
        peer_verified_local_address: false,
        need_send_ping: false,
        listed: false,
    }
}

// The all-zero state, which a refused fresh gives: it is not well formed.
pub fn no_paths() -> Paths
    ensures { result ≡ zero_paths }
{
    Paths {
        items: [no_path(); PATH_SLOTS],
        count: 0,
        max_paths: 0,
        anti_ampl_factor: 0,
        is_multipath: false,
        is_server: false,
    }
}
