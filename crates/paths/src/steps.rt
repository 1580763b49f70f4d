// What the calls are made of: an optional pair, the first state, and a path stored.
ghost use Rattle.std.specs.Prelude.{◌≡◌, ◌<◌, set};
ghost use Rattle.values.specs.Limits.{max_paths_limit};
ghost use Rattle.paths_rules.specs.Table as T;
ghost use Rattle.paths.specs.Reading.{no_pair, optional_pair, paths_of, put_paths};

use crate::answers::{DoneOut, PathParts};
use paths_state::Paths;
use values::FourTuple;
use values::limits::PATH_SLOTS;

fn zero_pair(p: FourTuple) -> bool
    ensures { result ≡ no_pair p }
{
    paths_state::zero_address(p.local) & paths_state::zero_address(p.remote)
}

// A pair of its form, or none: then it is zero.
pub fn pair_or_none(has_pair: bool, pair: FourTuple) -> bool
    ensures { result ≡ optional_pair has_pair pair }
{
    if has_pair {
        values::pair_formed(pair)
    } else {
        zero_pair(pair)
    }
}

pub fn first_state(
    pair: FourTuple,
    max_datagram_size: u64,
    limit: u64,
    factor: u64,
    server: bool,
) -> Paths
    ensures { result ≡ paths_of (T.fresh pair max_datagram_size limit factor server) }
{
    let mut items = [paths_state::no_path(); PATH_SLOTS];
    items[0] = path::first_path(pair, max_datagram_size);
    Paths {
        items,
        count: 1,
        max_paths: limit,
        anti_ampl_factor: factor,
        is_multipath: false,
        is_server: server,
    }
}

// What a call on one path leaves, as the whole state.
pub fn put(t: Paths, p: PathParts) -> DoneOut
    requires { p.place < max_paths_limit }
    ensures { result ≡ record { paths = put_paths (set t.items p.place p.path) t.count t; answer = p.answer } }
{
    let mut paths = t;
    paths.items[p.place] = p.path;
    DoneOut {
        paths,
        answer: p.answer,
    }
}
