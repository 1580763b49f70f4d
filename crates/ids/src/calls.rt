// The published calls, in the order of the Rust's ConnectionIdMgr. Each tests the state and its arguments first: what is not of its form is refused with 1,
// and the state comes back as it was. docs/RULES.md, "Source IDs", "Destination IDs" and "Marks, queues and lookups", has the steps after that. Where acts.rt
// has a call as the fields that it may change, those are put into the state here.
// `has_path` and `path` are an Option as C gives it; source and destination have calls of their own, as C names them.
ghost use Rattle.std.specs.Prelude.{◌≡◌, true, ◌&&◌};
ghost use Rattle.lists.specs.Defs.{given};
ghost use Rattle.values.specs.Cid.{id_formed};
ghost use Rattle.values.specs.Token.{token_formed_of, token_view};
ghost use Rattle.values.specs.Results.{counted_of, flagged_of, numbered_of};
ghost use Rattle.ids_rules.specs.Calls as C;
ghost use Rattle.ids.specs.Results.{found_answer, frame_answer, item_answer};
ghost use Rattle.ids.specs.Reading.{counted_call, done_call, flagged_call, found_call, frame_call, freed_call, fresh_ids, issued_call, item_call, numbered_call, path_formed_of, retired_call};

use crate::answers::{
    DoneOut, FoundAnswer, Frame, FrameAnswer, FreedOut, IssuedOut, ItemAnswer, RetiredOut,
};
use crate::{acts, forms, marks, reads, starts};
use ids_state::Ids;
use tables::Item;
use values::limits::MAX_DCID_LIMIT;
use values::{ConnectionId, Counted, Done, Flagged, Numbered, Refusal, ResetToken, Token};

// One source ID, with sequence 0, on its path. A refused call gives the all-zero state.
pub fn fresh(dcid_limit: u64, cid: ConnectionId, path: u64, token: Token) -> DoneOut
    ensures { result ≡ fresh_ids dcid_limit cid path token }
{
    let limit = (1 <= dcid_limit) & (dcid_limit <= MAX_DCID_LIMIT);
    if let Err(refusal) = values::form(
        values::token_formed(token) & limit & values::cid_formed(cid),
    ) {
        return DoneOut {
            ids: starts::zero_state(),
            answer: Done::from(Err(refusal)),
        };
    }
    DoneOut {
        ids: starts::first_state(dcid_limit, cid, path, token),
        answer: Done::from(Ok(())),
    }
}

// The destination table holds the ID alone, with sequence 0.
pub fn set_initial_dcid(
    s: Ids,
    cid: ConnectionId,
    token: Token,
    has_path: bool,
    path: u64,
) -> DoneOut
    ensures { result ≡ done_call s (id_formed cid && token_formed_of token && path_formed_of has_path path) (C.SetInitialDcid cid (token_view token) (given has_path path)) }
{
    match forms::checked(&s, forms::of_id(cid, token, has_path, path)) {
        Ok(_) => DoneOut {
            ids: Ids {
                dcids: starts::only(cid, token, has_path.then_some(path)),
                zero_length_dcid: cid.len == 0,
                ..s
            },
            answer: Done::from(Ok(())),
        },
        Err(refusal) => DoneOut {
            ids: s,
            answer: Done::from(Err(refusal)),
        },
    }
}

// The most source IDs that the peer allows, clamped to 2..16.
pub fn set_scid_limit(s: Ids, n: u64) -> DoneOut
    ensures { result ≡ done_call s true (C.SetScidLimit n) }
{
    let a = acts::set_scid_limit_at(s, n);
    DoneOut {
        ids: Ids {
            scid_limit: a.scid_limit,
            scid_capacity: a.scid_capacity,
            ..s
        },
        answer: a.answer,
    }
}

fn try_get_scid(s: &Ids, seq: u64) -> Result<Option<Item>, Refusal>
    ensures { item_answer result ≡ item_call s.now (C.GetScid seq) }
{
    reads::get(ids_state::checked(s)?.ids.scids.live(), seq)
}

// The source item with the sequence.
pub fn get_scid(s: Ids, seq: u64) -> ItemAnswer
    ensures { result ≡ item_call s (C.GetScid seq) }
{
    ItemAnswer::from(try_get_scid(&s, seq))
}

fn try_get_dcid(s: &Ids, seq: u64) -> Result<Option<Item>, Refusal>
    ensures { item_answer result ≡ item_call s.now (C.GetDcid seq) }
{
    reads::get(ids_state::checked(s)?.ids.dcids.live(), seq)
}

// The destination item with the sequence.
pub fn get_dcid(s: Ids, seq: u64) -> ItemAnswer
    ensures { result ≡ item_call s (C.GetDcid seq) }
{
    ItemAnswer::from(try_get_dcid(&s, seq))
}

fn try_find_scid(s: &Ids, cid: ConnectionId) -> Result<Option<Item>, Refusal>
    ensures { found_answer result ≡ found_call s.now (id_formed cid) (C.FindScid cid) }
{
    let f = forms::checked(s, values::cid_formed(cid))?;
    Ok(reads::find(f.ids.scids.live(), cid))
}

// The sequence and the path of the first source item with the ID.
pub fn find_scid(s: Ids, cid: ConnectionId) -> FoundAnswer
    ensures { result ≡ found_call s (id_formed cid) (C.FindScid cid) }
{
    FoundAnswer::from(try_find_scid(&s, cid))
}

// The source item is used by the path.
pub fn mark_scid_used(s: Ids, seq: u64, path: u64) -> DoneOut
    ensures { result ≡ done_call s true (C.MarkScidUsed seq path) }
{
    let a = acts::mark_scid_used_at(s, seq, path);
    DoneOut {
        ids: Ids {
            scids: a.table,
            ..s
        },
        answer: a.answer,
    }
}

// The destination item is used by the path.
pub fn mark_dcid_used(s: Ids, seq: u64, path: u64) -> DoneOut
    ensures { result ≡ done_call s true (C.MarkDcidUsed seq path) }
{
    let a = acts::mark_dcid_used_at(s, seq, path);
    DoneOut {
        ids: Ids {
            dcids: a.table,
            ..s
        },
        answer: a.answer,
    }
}

fn try_unused_scids(s: &Ids) -> Result<u64, Refusal>
    ensures { counted_of result ≡ counted_call s.now C.UnusedScids }
{
    Ok(tables::count_free(ids_state::checked(s)?.ids.scids.live()) as u64)
}

// How many source IDs no path uses.
pub fn unused_scids(s: Ids) -> Counted
    ensures { result ≡ counted_call s C.UnusedScids }
{
    Counted::from(try_unused_scids(&s))
}

fn try_unused_dcids(s: &Ids) -> Result<u64, Refusal>
    ensures { counted_of result ≡ counted_call s.now C.UnusedDcids }
{
    let ids = ids_state::checked(s)?.ids;
    if ids.zero_length_dcid {
        return Ok(0);
    }
    Ok(tables::count_free(ids.dcids.live()) as u64)
}

// How many destination IDs no path uses: none where they have zero length.
pub fn unused_dcids(s: Ids) -> Counted
    ensures { result ≡ counted_call s C.UnusedDcids }
{
    Counted::from(try_unused_dcids(&s))
}

fn try_lowest_unused_dcid_seq(s: &Ids) -> Result<Option<u64>, Refusal>
    ensures { numbered_of result ≡ numbered_call s.now C.LowestUnusedDcidSeq }
{
    Ok(tables::lowest_free(ids_state::checked(s)?.ids.dcids.live()))
}

// The lowest destination sequence that no path uses.
pub fn lowest_unused_dcid_seq(s: Ids) -> Numbered
    ensures { result ≡ numbered_call s C.LowestUnusedDcidSeq }
{
    Numbered::from(try_lowest_unused_dcid_seq(&s))
}

// A new source ID, at the end of the table: the answer is its sequence.
pub fn add_scid(
    s: Ids,
    cid: ConnectionId,
    token: Token,
    advertise: bool,
    has_path: bool,
    path: u64,
    retire_if_needed: bool,
) -> IssuedOut
    ensures { result ≡ issued_call s (id_formed cid && token_formed_of token && path_formed_of has_path path) (C.AddScid cid (token_view token) advertise (given has_path path) retire_if_needed) }
{
    let a = acts::add_scid_at(s, cid, token, advertise, has_path, path, retire_if_needed);
    IssuedOut {
        ids: Ids {
            scids: a.scids,
            scids_to_advertise: a.scids_to_advertise,
            next_scid_seq: a.next_scid_seq,
            retire_prior_to: a.retire_prior_to,
            ..s
        },
        answer: a.answer,
    }
}

// A NEW_CONNECTION_ID frame: the answer is what it retired of the IDs in use. One below an earlier Retire Prior To gives no ID: it is queued to be retired, or
// waits there already and changes nothing [10].
pub fn add_dcid(
    s: Ids,
    cid: ConnectionId,
    seq: u64,
    token: ResetToken,
    retire_prior_to: u64,
) -> RetiredOut
    ensures { result ≡ retired_call s (id_formed cid) (C.AddDcid cid seq token.bytes retire_prior_to) }
{
    let a = acts::add_dcid_at(s, cid, seq, token, retire_prior_to);
    RetiredOut {
        ids: Ids {
            dcids: a.dcids,
            dcids_to_retire: a.dcids_to_retire,
            largest_peer_retire_prior_to: a.largest_peer_retire_prior_to,
            ..s
        },
        answer: a.answer,
    }
}

// A RETIRE_CONNECTION_ID frame: the answer is the path that used the ID.
pub fn retire_scid(s: Ids, seq: u64, packet: ConnectionId) -> FreedOut
    ensures { result ≡ freed_call s (id_formed packet) (C.RetireScid seq packet) }
{
    let a = acts::retire_scid_at(s, seq, packet);
    FreedOut {
        ids: Ids {
            scids: a.scids,
            retire_prior_to: a.retire_prior_to,
            ..s
        },
        answer: a.answer,
    }
}

// The source sequence is to be announced, or no longer.
pub fn mark_scid_to_advertise(s: Ids, seq: u64, on: bool) -> DoneOut
    ensures { result ≡ done_call s true (C.MarkScidToAdvertise seq on) }
{
    match ids_state::checked(&s) {
        Ok(_) => {
            let a = marks::queue_step(s.scids_to_advertise, seq, on);
            DoneOut {
                ids: Ids {
                    scids_to_advertise: a.queue,
                    ..s
                },
                answer: a.answer,
            }
        }
        Err(refusal) => DoneOut {
            ids: s,
            answer: Done::from(Err(refusal)),
        },
    }
}

// The destination sequence is to be retired, or no longer.
pub fn mark_dcid_to_retire(s: Ids, seq: u64, on: bool) -> DoneOut
    ensures { result ≡ done_call s true (C.MarkDcidToRetire seq on) }
{
    match ids_state::checked(&s) {
        Ok(_) => {
            let a = marks::queue_step(s.dcids_to_retire, seq, on);
            DoneOut {
                ids: Ids {
                    dcids_to_retire: a.queue,
                    ..s
                },
                answer: a.answer,
            }
        }
        Err(refusal) => DoneOut {
            ids: s,
            answer: Done::from(Err(refusal)),
        },
    }
}

fn try_next_scid_to_advertise(s: &Ids) -> Result<Option<u64>, Refusal>
    ensures { numbered_of result ≡ numbered_call s.now C.NextScidToAdvertise }
{
    let ids = ids_state::checked(s)?.ids;
    Ok(ids.scids_to_advertise.entries().first().copied())
}

// The source sequence that is to be announced next.
pub fn next_scid_to_advertise(s: Ids) -> Numbered
    ensures { result ≡ numbered_call s C.NextScidToAdvertise }
{
    Numbered::from(try_next_scid_to_advertise(&s))
}

fn try_next_dcid_to_retire(s: &Ids) -> Result<Option<u64>, Refusal>
    ensures { numbered_of result ≡ numbered_call s.now C.NextDcidToRetire }
{
    let ids = ids_state::checked(s)?.ids;
    Ok(ids.dcids_to_retire.entries().first().copied())
}

// The destination sequence that is to be retired next.
pub fn next_dcid_to_retire(s: Ids) -> Numbered
    ensures { result ≡ numbered_call s C.NextDcidToRetire }
{
    Numbered::from(try_next_dcid_to_retire(&s))
}

fn try_create_new_connection_id_frame(s: &Ids, seq: u64) -> Result<Frame, Refusal>
    ensures { frame_answer result ≡ frame_call s.now (C.CreateNewConnectionIdFrame seq) }
{
    let ids = ids_state::checked(s)?.ids;
    reads::frame(ids.scids.live(), ids.retire_prior_to, seq)
}

// The frame that announces the source ID.
pub fn create_new_connection_id_frame(s: Ids, seq: u64) -> FrameAnswer
    ensures { result ≡ frame_call s (C.CreateNewConnectionIdFrame seq) }
{
    FrameAnswer::from(try_create_new_connection_id_frame(&s, seq))
}

fn try_need_send_cid_control_frames(s: &Ids) -> Result<bool, Refusal>
    ensures { flagged_of result ≡ flagged_call s.now C.NeedSendCidControlFrames }
{
    let ids = ids_state::checked(s)?.ids;
    Ok((ids.dcids_to_retire.count != 0) | (ids.scids_to_advertise.count != 0))
}

// Whether one of the queues has an entry.
pub fn need_send_cid_control_frames(s: Ids) -> Flagged
    ensures { result ≡ flagged_call s C.NeedSendCidControlFrames }
{
    Flagged::from(try_need_send_cid_control_frames(&s))
}

fn try_zero_length_dcid(s: &Ids) -> Result<bool, Refusal>
    ensures { flagged_of result ≡ flagged_call s.now C.ZeroLengthDcid }
{
    Ok(ids_state::checked(s)?.ids.zero_length_dcid)
}

// Whether the first destination ID was empty.
pub fn zero_length_dcid(s: Ids) -> Flagged
    ensures { result ≡ flagged_call s C.ZeroLengthDcid }
{
    Flagged::from(try_zero_length_dcid(&s))
}

fn try_zero_length_scid(s: &Ids) -> Result<bool, Refusal>
    ensures { flagged_of result ≡ flagged_call s.now C.ZeroLengthScid }
{
    Ok(ids_state::checked(s)?.ids.zero_length_scid)
}

// Whether our first source ID was empty.
pub fn zero_length_scid(s: Ids) -> Flagged
    ensures { result ≡ flagged_call s C.ZeroLengthScid }
{
    Flagged::from(try_zero_length_scid(&s))
}

fn try_dcid_count(s: &Ids) -> Result<u64, Refusal>
    ensures { counted_of result ≡ counted_call s.now C.DcidCount }
{
    Ok(ids_state::checked(s)?.ids.dcids.count as u64)
}

pub fn dcid_count(s: Ids) -> Counted
    ensures { result ≡ counted_call s C.DcidCount }
{
    Counted::from(try_dcid_count(&s))
}

fn try_dcid_at(s: &Ids, place: u64) -> Result<Option<Item>, Refusal>
    ensures { item_answer result ≡ item_call s.now (C.DcidAt place) }
{
    let ids = ids_state::checked(s)?.ids;
    Ok(ids.dcids.live().get(place as usize).copied())
}

pub fn dcid_at(s: Ids, place: u64) -> ItemAnswer
    ensures { result ≡ item_call s (C.DcidAt place) }
{
    ItemAnswer::from(try_dcid_at(&s, place))
}

fn try_scid_count(s: &Ids) -> Result<u64, Refusal>
    ensures { counted_of result ≡ counted_call s.now C.ScidCount }
{
    Ok(ids_state::checked(s)?.ids.scids.count as u64)
}

// In place of the Rust's iterators: the count of each table, and the item at a place.
pub fn scid_count(s: Ids) -> Counted
    ensures { result ≡ counted_call s C.ScidCount }
{
    Counted::from(try_scid_count(&s))
}

fn try_scid_at(s: &Ids, place: u64) -> Result<Option<Item>, Refusal>
    ensures { item_answer result ≡ item_call s.now (C.ScidAt place) }
{
    let ids = ids_state::checked(s)?.ids;
    Ok(ids.scids.live().get(place as usize).copied())
}

pub fn scid_at(s: Ids, place: u64) -> ItemAnswer
    ensures { result ≡ item_call s (C.ScidAt place) }
{
    ItemAnswer::from(try_scid_at(&s, place))
}
