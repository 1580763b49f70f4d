// The published calls, in the order of path.rs: what it does on a `Path`, with the fields that connection code writes there, then `PathMap`. Each tests the state and its arguments first: what is not of its form is refused with 1,
// and the state comes back as it was. docs/RULES.md, "Paths", "Challenges", "Credit" and "Pings and multipath", has the steps after that. A call on one path is
// made of what acts.rt gives for it: the path as it is left, and its place.
// `has_seq` and `seq`, `has_pair` and `pair` are Options as C gives them.
ghost use Rattle.std.specs.Prelude.{◌≡◌, true};
ghost use Rattle.lists.specs.Defs.{given};
ghost use Rattle.values.specs.Address.{pair_formed_of};
ghost use Rattle.values.specs.Time.{moment_formed_of};
ghost use Rattle.paths_state.specs.Formed.{seq_formed};
ghost use Rattle.paths_rules.specs.Calls as C;
ghost use Rattle.paths_rules.specs.Table as T;
ghost use Rattle.paths.specs.Reading.{address_call, counted_call, done_call, done_of, flagged_call, found_call, inserted_call, numbered_call, optional_pair, path_call, popped_call, responded_call, timed_call};

use crate::acts::{excused, found};
use crate::answers::{
    AddressAnswer, DoneOut, FoundAnswer, InsertedOut, PathAnswer, PoppedOut, RespondedOut,
};
use crate::{acts, changes, search, steps};
use paths_state::Paths;
use values::limits::MAX_PATHS;
use values::{Counted, Done, Flagged, FourTuple, Moment, Numbered, Timed};

pub fn local_addr(t: Paths, id: u64) -> AddressAnswer
    ensures { result ≡ address_call t true (C.On id (C.Look C.LocalAddr)) }
{
    AddressAnswer::from(found(&t, id).map(|x| x.path.pair.local))
}

pub fn remote_addr(t: Paths, id: u64) -> AddressAnswer
    ensures { result ≡ address_call t true (C.On id (C.Look C.RemoteAddr)) }
{
    AddressAnswer::from(found(&t, id).map(|x| x.path.pair.remote))
}

// The oldest challenge received is taken out: the answer is its data.
pub fn pop_recv_chal(t: Paths, id: u64) -> PoppedOut
    ensures { result ≡ popped_call t true (C.On id C.Pop) }
{
    let p = acts::pop_recv_chal_at(t, id);
    let mut paths = t;
    paths.items[p.place] = p.path;
    PoppedOut {
        paths,
        answer: p.answer,
    }
}

// Whether a challenge is asked for.
pub fn path_chal_initiated(t: Paths, id: u64) -> Flagged
    ensures { result ≡ flagged_call t true (C.On id (C.Look C.Initiated)) }
{
    Flagged::from(found(&t, id).map(|x| x.path.need_send_challenge))
}

// A challenge is asked for.
pub fn initiate_path_chal(t: Paths, id: u64) -> DoneOut
    ensures { result ≡ done_call t true (C.On id C.Initiate) }
{
    steps::put(t, acts::initiate_path_chal_at(t, id))
}

// Whether a challenge or a response is to be sent, and a server has the credit for it.
pub fn need_send_validation_frames(t: Paths, id: u64) -> Flagged
    ensures { result ≡ flagged_call t true (C.On id (C.Look C.NeedsFrames)) }
{
    Flagged::from(found(&t, id).map(|x| path::needs_frames(x, t.is_server)))
}

// Whether packets on the path are to be expanded.
pub fn need_expand_padding_frames(t: Paths, id: u64) -> Flagged
    ensures { result ≡ flagged_call t true (C.On id (C.Look C.NeedsPadding)) }
{
    Flagged::from(found(&t, id).map(|x| path::needs_padding(x.path, t.is_server)))
}

pub fn validated(t: Paths, id: u64) -> Flagged
    ensures { result ≡ flagged_call t true (C.On id (C.Look C.Validated)) }
{
    Flagged::from(found(&t, id).map(|x| path::is_validated(x.path)))
}

// Whether the path has the active flag and a destination sequence.
pub fn active(t: Paths, id: u64) -> Flagged
    ensures { result ≡ flagged_call t true (C.On id (C.Look C.Active)) }
{
    Flagged::from(found(&t, id).map(|x| path::in_use(x.path)))
}

pub fn set_active(t: Paths, id: u64, on: bool) -> DoneOut
    ensures { result ≡ done_call t true (C.On id (C.SetActive on)) }
{
    steps::put(t, acts::set_active_at(t, id, on))
}

// The rank of the path's state.
pub fn state(t: Paths, id: u64) -> Counted
    ensures { result ≡ counted_call t true (C.On id (C.Look C.State)) }
{
    Counted::from(found(&t, id).map(|x| u64::from(x.path.state)))
}

// The source sequence that the path uses, or none: then it is 0.
pub fn set_scid_seq(t: Paths, id: u64, has_seq: bool, seq: u64) -> DoneOut
    ensures { result ≡ done_call t (seq_formed has_seq seq) (C.On id (C.SetScid (given has_seq seq))) }
{
    steps::put(t, acts::set_scid_seq_at(t, id, has_seq, seq))
}

// The destination sequence that the path uses, or none: then it is 0.
pub fn set_dcid_seq(t: Paths, id: u64, has_seq: bool, seq: u64) -> DoneOut
    ensures { result ≡ done_call t (seq_formed has_seq seq) (C.On id (C.SetDcid (given has_seq seq))) }
{
    steps::put(t, acts::set_dcid_seq_at(t, id, has_seq, seq))
}

// The peer's address is verified.
pub fn mark_verified(t: Paths, id: u64) -> DoneOut
    ensures { result ≡ done_call t true (C.On id C.Verify) }
{
    steps::put(t, acts::mark_verified_at(t, id))
}

// One path, Validated and active, with the id 0. A refused call gives the all-zero state.
pub fn fresh(
    pair: FourTuple,
    max_datagram_size: u64,
    limit: u64,
    factor: u64,
    server: bool,
) -> DoneOut
    ensures { result ≡ done_of (T.fresh_call pair max_datagram_size limit factor server) }
{
    let formed = (1 <= limit) & (limit <= MAX_PATHS) & values::pair_formed(pair);
    let paths = if formed {
        steps::first_state(pair, max_datagram_size, limit, factor, server)
    } else {
        paths_state::no_paths()
    };
    DoneOut {
        paths,
        answer: Done::from(values::form(formed)),
    }
}

// The path with the id.
pub fn get(t: Paths, id: u64) -> PathAnswer
    ensures { result ≡ path_call t true (C.On id (C.Look C.Get)) }
{
    PathAnswer::from(found(&t, id))
}

// The id of the path that is listed with the pair.
pub fn get_path_id(t: Paths, pair: FourTuple) -> Numbered
    ensures { result ≡ numbered_call t (pair_formed_of pair) (C.Ask (C.IdOf pair)) }
{
    Numbered::from(search::listed(&t, pair))
}

// The first path with the active flag.
pub fn get_active(t: Paths) -> FoundAnswer
    ensures { result ≡ found_call t true (C.Ask C.GetActive) }
{
    FoundAnswer::from(search::flagged(&t))
}

// A new path: the answer is its id.
pub fn insert_path(t: Paths, pair: FourTuple, max_datagram_size: u64) -> InsertedOut
    ensures { result ≡ inserted_call t (pair_formed_of pair) (C.Insert pair max_datagram_size) }
{
    let mut paths = t;
    let answer = Counted::from(changes::insert(&mut paths, pair, max_datagram_size));
    InsertedOut { paths, answer }
}

// How many paths there are.
#[tactic(auto, using(crate::specs::ReadingLaws::paths_long, crate::specs::ReadingLaws::tidy))]
pub fn len(t: Paths) -> Counted
    ensures { result ≡ counted_call t true (C.Ask C.Len) }
{
    Counted::from(paths_state::checked(&t).map(|f| f.paths.count as u64))
}

// A PATH_CHALLENGE frame came.
pub fn on_path_chal_received(t: Paths, id: u64, data: u64) -> DoneOut
    ensures { result ≡ done_call t true (C.On id (C.Receive «data»)) }
{
    steps::put(t, acts::on_path_chal_received_at(t, id, data))
}

// A PATH_RESPONSE frame came: the answer is whether the path is now Validated, and a span for each challenge that it matched; by one that matches none, nothing
// changes [2].
pub fn on_path_resp_received(t: Paths, id: u64, data: u64, now: Moment) -> RespondedOut
    ensures { result ≡ responded_call t (moment_formed_of now.us) (C.On id (C.Respond «data» now.us)) }
{
    let p = acts::on_path_resp_received_at(t, id, data, now);
    let mut paths = t;
    paths.items[p.place] = p.path;
    RespondedOut {
        paths,
        answer: p.answer,
    }
}

// A PATH_CHALLENGE frame was sent in a packet of that size.
pub fn on_path_chal_sent(t: Paths, id: u64, data: u64, size: u64, sent: Moment) -> DoneOut
    ensures { result ≡ done_call t (moment_formed_of sent.us) (C.On id (C.Send «data» size sent.us)) }
{
    steps::put(t, acts::on_path_chal_sent_at(t, id, data, size, sent))
}

// Challenges that are due count as lost, on every path that is being validated.
pub fn on_path_chal_timeout(t: Paths, now: Moment) -> DoneOut
    ensures { result ≡ done_call t (moment_formed_of now.us) (C.Timeout now.us) }
{
    let mut paths = t;
    let answer = Done::from(changes::time_out(&mut paths, now));
    DoneOut { paths, answer }
}

// The least front deadline.
pub fn min_path_chal_timer(t: Paths) -> Timed
    ensures { result ≡ timed_call t true (C.Ask C.Timer) }
{
    Timed::from(paths_state::checked(&t).map(|f| search::first_due(f)))
}

// Bytes came: a server's credit on a path that is not verified rises by factor x length.
pub fn inc_anti_ampl_limit(t: Paths, id: u64, length: u64) -> DoneOut
    ensures { result ≡ done_call t true (C.On id (C.Credit length)) }
{
    steps::put(t, acts::inc_anti_ampl_limit_at(t, id, length))
}

// Bytes were sent: the credit falls by the length.
pub fn dec_anti_ampl_limit(t: Paths, id: u64, length: u64) -> DoneOut
    ensures { result ≡ done_call t true (C.On id (C.Charge length)) }
{
    steps::put(t, acts::dec_anti_ampl_limit_at(t, id, length))
}

// How much of the wish may be sent: of an unknown id, all.
pub fn cmp_anti_ampl_limit(t: Paths, id: u64, wish: u64) -> Counted
    ensures { result ≡ counted_call t true (C.On id (C.Look (C.Allowed wish))) }
{
    match found(&t, id) {
        Ok(x) => Counted::from(Ok(path::allowed(x.path, t.is_server, wish))),
        Err(e) => Counted::from(excused(e, wish)),
    }
}

// A ping is asked for; an absent pair is zero.
pub fn mark_ping(t: Paths, has_pair: bool, pair: FourTuple) -> DoneOut
    ensures { result ≡ done_call t (optional_pair has_pair pair) (C.Ping (given has_pair pair)) }
{
    let mut paths = t;
    let answer = Done::from(changes::ping(&mut paths, has_pair, pair));
    DoneOut { paths, answer }
}

// Multipath is on from here.
#[tactic(auto, using(crate::specs::ReadingLaws::tidy, crate::specs::ReadingLaws::view_is))]
pub fn enable_multipath(t: Paths) -> DoneOut
    ensures { result ≡ done_call t true C.Multipath }
{
    let formed = paths_state::formed(&t);
    let mut paths = t;
    paths.is_multipath |= formed;
    DoneOut {
        paths,
        answer: Done::from(values::form(formed)),
    }
}
