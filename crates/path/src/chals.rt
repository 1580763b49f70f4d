// The challenges that the peer sent, and the deadline of the first one sent.
ghost use Rattle.std.specs.Prelude.{◌≡◌};
ghost use Rattle.lists.specs.Defs.{front, optional};
ghost use Rattle.values.specs.Time.{moved_of};
ghost use Rattle.paths_rules.specs.Path as R;
ghost use Rattle.path.specs.Reading.{path_of, path_view};

use paths_state::{FormedPath, Path};
use values::Moment;

pub fn due(x: FormedPath) -> Option<Moment>
    ensures { result ≡ moved_of (R.due (path_view x.entry.path.now)) }
{
    challenges::sent_front(&x.path.sent_chals)
}

// The oldest challenge received.
pub fn waiting_front(x: FormedPath) -> Option<u64>
    ensures { result ≡ optional (front (path_view x.entry.path.now).received) }
{
    challenges::received_front(&x.path.recv_chals)
}

// It is taken out.
pub fn popped(x: FormedPath) -> Path
    ensures { result ≡ path_of (R.pop (path_view x.entry.path.now)) }
{
    Path {
        recv_chals: challenges::received_pop(x.path.recv_chals),
        ..*x.path
    }
}

// A challenge is received: where eight stand the oldest goes.
pub fn received(x: FormedPath, data: u64) -> Path
    ensures { result ≡ path_of (R.receive «data» (path_view x.entry.path.now)) }
{
    Path {
        recv_chals: challenges::received_push(x.path.recv_chals, data),
        peer_verified_local_address: true,
        ..*x.path
    }
}
