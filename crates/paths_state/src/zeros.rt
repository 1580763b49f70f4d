// Whether a path is zero in every field.
ghost use Rattle.std.specs.Prelude.{◌≡◌};
ghost use Rattle.paths_state.specs.Formed.{no_address, no_marks, no_numbers, no_path};

use crate::state::Path;
use values::{Address, Gather};

pub fn zero_address(a: Address) -> bool
    ensures { result ≡ no_address a }
{
    a.ip.is_none() & (a.flow == 0) & (a.scope == 0) & (a.port == 0) & (a.kind == 0)
}

fn zero_numbers(x: &Path) -> bool
    ensures { result ≡ no_numbers x.now }
{
    (x.max_datagram_size == 0)
        & (x.scid_seq == 0)
        & (x.dcid_seq == 0)
        & (x.lost_chal == 0)
        & (x.max_challenge_size == 0)
        & (x.anti_ampl_limit == 0)
        & (x.state == 0)
}

fn zero_marks(x: &Path) -> bool
    ensures { result ≡ no_marks x.now }
{
    !x.has_scid
        & !x.has_dcid
        & !x.active
        & !x.need_send_challenge
        & !x.verified_peer_address
        & !x.peer_verified_local_address
        & !x.need_send_ping
        & !x.listed
}

pub fn zero_path(x: &Path) -> bool
    ensures { result ≡ no_path x.now }
{
    zero_address(x.pair.local)
        & zero_address(x.pair.remote)
        & x.recv_chals.items.is_none()
        & (x.recv_chals.count == 0)
        & x.sent_chals.items.is_none()
        & (x.sent_chals.count == 0)
        & zero_numbers(x)
        & zero_marks(x)
}
