// A path with one field set.
#![tactic(auto, using(crate::specs::ReadingLaws::path_is))]

ghost use Rattle.std.specs.Prelude.{◌≡◌, true};
ghost use Rattle.paths_rules.specs.With.{with_active_of, with_ask, with_dcid_of, with_ping, with_scid_of, with_verified};
ghost use Rattle.paths_rules.specs.Table.{ping_in_use_of};
ghost use Rattle.path.specs.Reading.{option_view, path_of, path_view};

use crate::tests;
use paths_state::{FormedPath, Path};

// A challenge is asked for.
pub fn initiated(x: FormedPath) -> Path
    ensures { result ≡ path_of (with_ask true (path_view x.entry.path.now)) }
{
    Path {
        need_send_challenge: true,
        ..*x.path
    }
}

pub fn with_scid(x: FormedPath, seq: Option<u64>) -> Path
    ensures { result ≡ path_of (with_scid_of (option_view seq) (path_view x.entry.path.now)) }
{
    Path {
        has_scid: seq.is_some(),
        scid_seq: seq.unwrap_or(0),
        ..*x.path
    }
}

pub fn with_dcid(x: FormedPath, seq: Option<u64>) -> Path
    ensures { result ≡ path_of (with_dcid_of (option_view seq) (path_view x.entry.path.now)) }
{
    Path {
        has_dcid: seq.is_some(),
        dcid_seq: seq.unwrap_or(0),
        ..*x.path
    }
}

pub fn with_active(x: FormedPath, on: bool) -> Path
    ensures { result ≡ path_of (with_active_of on (path_view x.entry.path.now)) }
{
    Path {
        active: on,
        ..*x.path
    }
}

// The peer's address is verified.
pub fn verified(x: FormedPath) -> Path
    ensures { result ≡ path_of (with_verified true (path_view x.entry.path.now)) }
{
    Path {
        verified_peer_address: true,
        ..*x.path
    }
}

pub fn pinged(x: FormedPath) -> Path
    ensures { result ≡ path_of (with_ping true (path_view x.entry.path.now)) }
{
    Path {
        need_send_ping: true,
        ..*x.path
    }
}

pub fn ping_in_use(x: FormedPath) -> Path
    ensures { result ≡ path_of (ping_in_use_of (path_view x.entry.path.now)) }
{
    if tests::in_use(x.path) {
        pinged(x)
    } else {
        *x.path
    }
}
