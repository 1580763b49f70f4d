// The form of one path: docs/RULES.md, "Well-formed paths", 3 to 8; and 9 of two of them.
ghost use Rattle.std.specs.Prelude.{◌≡◌};
ghost use Rattle.lists.specs.Defs.{all};
ghost use Rattle.values.specs.Address as A;
ghost use Rattle.paths_state.specs.Formed as F;

use crate::state::Path;
use challenges::{Challenge, Received, Sent};
use values::FourTuple;
use values::limits::{MAX_LOST, MAX_PATH_CHALS_RECV, MAX_PATH_CHALS_SENT};

// At most 8 challenges received, and zeros past them.
fn received_formed(q: &Received) -> bool
    ensures { result ≡ F.received_formed_of q.now }
{
    (q.count <= MAX_PATH_CHALS_RECV) && values::all_nothing(&q.items[q.count..])
}

// The moment when each was sent, and its deadline.
fn all_timed(challenges: &[Challenge]) -> bool
    ensures { result ≡ all F.timed challenges.now }
{
    challenges.iter().all(|c| values::moment_formed(c.sent) & values::moment_formed(c.deadline))
}

// At most 16 challenges sent, each with moments of their form, and zeros past them.
fn sent_formed(s: &Sent) -> bool
    ensures { result ≡ F.sent_formed_of s.now }
{
    (s.count <= MAX_PATH_CHALS_SENT)
        && all_timed(s.standing())
        && values::all_nothing(&s.items[s.count..])
}

pub fn path_formed(x: &Path) -> bool
    ensures { result ≡ F.path_formed_of x.now }
{
    let lost = (x.lost_chal <= MAX_LOST) & ((x.lost_chal != MAX_LOST) | (x.sent_chals.count == 0));
    values::pair_formed(x.pair)
        & (x.has_scid | (x.scid_seq == 0))
        & (x.has_dcid | (x.dcid_seq == 0))
        & received_formed(&x.recv_chals)
        & sent_formed(&x.sent_chals)
        & lost
}

// The remote ports come first: among the pairs of a connection they are what differs most often.
pub fn same_pair(a: &FourTuple, b: &FourTuple) -> bool
    ensures { result ≡ A.same_pair a.now b.now }
{
    (a.remote.port == b.remote.port) && (a == b)
}

// Not both are listed with the same pair.
pub fn differ(x: &Path, y: &Path) -> bool
    ensures { result ≡ F.apart x.now y.now }
{
    let same = same_pair(&x.pair, &y.pair);
    !(x.listed & y.listed & same)
}
