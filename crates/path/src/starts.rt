// A path at its start: one that is inserted, and the first of a fresh table.
ghost use Rattle.std.specs.Prelude.{◌≡◌};
ghost use Rattle.paths_rules.specs.Path.{first_path_of, new_path_of};
ghost use Rattle.path.specs.Reading.{path_of};

use crate::states::PathState;
use paths_state::Path;
use values::FourTuple;

pub fn new_path(pair: FourTuple, mds: u64) -> Path
    ensures { result ≡ path_of (new_path_of pair mds) }
{
    Path {
        pair,
        max_datagram_size: mds,
        state: u8::from(PathState::Unknown),
        listed: true,
        ..paths_state::no_path()
    }
}

pub fn first_path(pair: FourTuple, mds: u64) -> Path
    ensures { result ≡ path_of (first_path_of pair mds) }
{
    Path {
        state: u8::from(PathState::Validated),
        has_scid: true,
        has_dcid: true,
        active: true,
        ..new_path(pair, mds)
    }
}
