// What is asked of a path.
ghost use Rattle.std.specs.Prelude.{◌≡◌};
ghost use Rattle.paths_rules.specs.Path as R;
ghost use Rattle.path.specs.Reading.{path_view};

use crate::states::PathState;
use paths_state::{FormedPath, Path};
use values::FourTuple;
use values::limits::MIN_PATH_PROBE_SIZE;

// The active flag off and no destination sequence.
pub fn unused(x: &Path) -> bool
    ensures { result ≡ R.unused (path_view x.now) }
{
    !x.active & !x.has_dcid
}

pub fn in_use(x: &Path) -> bool
    ensures { result ≡ R.in_use (path_view x.now) }
{
    x.active & x.has_dcid
}

pub fn is_validated(x: &Path) -> bool
    ensures { result ≡ R.validated (path_view x.now) }
{
    x.state == u8::from(PathState::Validated)
}

// A server asks for validation frames only with credit 64 or more.
#[tactic(auto, using(crate::specs::FieldLaws::frames_is))]
pub fn needs_frames(x: FormedPath, server: bool) -> bool
    ensures { result ≡ R.needs_frames server (path_view x.entry.path.now) }
{
    let poor = server & (x.path.anti_ampl_limit < MIN_PATH_PROBE_SIZE);
    !poor & (x.path.need_send_challenge | (x.path.recv_chals.count != 0))
}

pub fn needs_padding(x: &Path, server: bool) -> bool
    ensures { result ≡ R.needs_padding server (path_view x.now) }
{
    let poor = server & (x.anti_ampl_limit <= x.max_datagram_size);
    !is_validated(x) & !poor
}

// How many of the bytes that the caller wishes to send may be sent.
pub fn allowed(x: &Path, server: bool, wish: u64) -> u64
    ensures { result ≡ R.allowed server wish (path_view x.now) }
{
    let bound = server & !x.verified_peer_address;
    if bound {
        wish.min(x.anti_ampl_limit)
    } else {
        wish
    }
}

pub fn listed_as(x: &Path, pair: FourTuple) -> bool
    ensures { result ≡ R.listed_as pair (path_view x.now) }
{
    x.listed & (x.pair == pair)
}

// Whether the path is listed still where another path takes the pair over.
pub fn stays_listed(x: &Path, pair: FourTuple) -> bool
    ensures { result ≡ (R.unlist pair (path_view x.now)).listed }
{
    x.listed & !paths_state::same_pair(&x.pair, &pair)
}
