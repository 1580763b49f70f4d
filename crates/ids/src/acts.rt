// The calls that change the state, as what they may change of it and the answer: a lent state is changed in place by that. Each tests
// the state and its arguments first: what is not of its form is refused with 1, and the fields come back as they were. docs/RULES.md has the steps after
// that.
// `has_path` and `path` are an Option as C gives it; source and destination have calls of their own, as C names them.
ghost use Rattle.std.specs.Prelude.{true, ◌&&◌};
ghost use Rattle.lists.specs.Defs.{given};
ghost use Rattle.values.specs.Cid.{id_formed};
ghost use Rattle.values.specs.Token.{token_formed_of, token_view};
ghost use Rattle.ids_rules.specs.Calls as C;
ghost use Rattle.ids.specs.Reading.{done_call, freed_call, issued_call, path_formed_of, retired_call};
ghost use Rattle.ids.specs.Puts.{put_advertise, put_destination, put_initial, put_issued, put_limit, put_lowered, put_retire, put_source, put_source_rpt};
ghost use Rattle.ids.specs.Acts.{FreedLeaves, IssuedLeaves, Leaves, RetiredLeaves};

use crate::answers::{
    FreedParts, InitialParts, IssuedParts, LimitParts, QueueParts, RetiredParts, TableParts,
};
use crate::{adds, forms, issues, marks, starts};
use ids_state::Ids;
use values::limits::{MAX_CIDS_COUNT, MIN_SCID_LIMIT};
use values::{ConnectionId, Done, ResetToken, Token};

// The destination table holds the ID alone, with sequence 0.
pub fn set_initial_dcid_at(
    s: Ids,
    cid: ConnectionId,
    token: Token,
    has_path: bool,
    path: u64,
) -> InitialParts
    ensures { Leaves (put_initial result.dcids result.zero_length_dcid s) result.answer (done_call s (id_formed cid && token_formed_of token && path_formed_of has_path path) (C.SetInitialDcid cid (token_view token) (given has_path path))) }
{
    match forms::checked(&s, forms::of_id(cid, token, has_path, path)) {
        Ok(_) => InitialParts {
            dcids: starts::only(cid, token, has_path.then_some(path)),
            zero_length_dcid: cid.len == 0,
            answer: Done::from(Ok(())),
        },
        Err(refusal) => InitialParts {
            dcids: s.dcids,
            zero_length_dcid: s.zero_length_dcid,
            answer: Done::from(Err(refusal)),
        },
    }
}

// The most source IDs that the peer allows, clamped to 2..16.
pub fn set_scid_limit_at(s: Ids, n: u64) -> LimitParts
    ensures { Leaves (put_limit result.scid_limit result.scid_capacity s) result.answer (done_call s true (C.SetScidLimit n)) }
{
    match ids_state::checked(&s) {
        Ok(_) => {
            let scid_limit = n.clamp(MIN_SCID_LIMIT, MAX_CIDS_COUNT);
            let capacity = starts::capacity_for(scid_limit) as usize;
            LimitParts {
                scid_limit,
                scid_capacity: s.scid_capacity.max(capacity),
                answer: Done::from(Ok(())),
            }
        }
        Err(refusal) => LimitParts {
            scid_limit: s.scid_limit,
            scid_capacity: s.scid_capacity,
            answer: Done::from(Err(refusal)),
        },
    }
}

// The source item is used by the path.
pub fn mark_scid_used_at(s: Ids, seq: u64, path: u64) -> TableParts
    ensures { Leaves (put_source result.table s) result.answer (done_call s true (C.MarkScidUsed seq path)) }
{
    match ids_state::checked(&s) {
        Ok(_) => marks::used_step(s.scids, seq, path),
        Err(refusal) => TableParts {
            table: s.scids,
            answer: Done::from(Err(refusal)),
        },
    }
}

// The destination item is used by the path.
pub fn mark_dcid_used_at(s: Ids, seq: u64, path: u64) -> TableParts
    ensures { Leaves (put_destination result.table s) result.answer (done_call s true (C.MarkDcidUsed seq path)) }
{
    match ids_state::checked(&s) {
        Ok(_) => marks::used_step(s.dcids, seq, path),
        Err(refusal) => TableParts {
            table: s.dcids,
            answer: Done::from(Err(refusal)),
        },
    }
}

// A new source ID, at the end of the table: the answer is its sequence.
pub fn add_scid_at(
    s: Ids,
    cid: ConnectionId,
    token: Token,
    advertise: bool,
    has_path: bool,
    path: u64,
    retire_if_needed: bool,
) -> IssuedParts
    ensures { IssuedLeaves (put_issued result.scids result.scids_to_advertise result.next_scid_seq result.retire_prior_to s) result.answer (issued_call s (id_formed cid && token_formed_of token && path_formed_of has_path path) (C.AddScid cid (token_view token) advertise (given has_path path) retire_if_needed)) }
{
    match forms::checked(&s, forms::of_id(cid, token, has_path, path)) {
        Ok(f) => {
            let path = has_path.then_some(path);
            issues::add_scid_step(f, cid, token, advertise, path, retire_if_needed)
        }
        Err(refusal) => issues::none_issued(&s, s.retire_prior_to, refusal),
    }
}

// A NEW_CONNECTION_ID frame: the answer is what it retired of the IDs in use. One below an earlier Retire Prior To gives no ID: it is queued to be retired, or
// waits there already and changes nothing [10].
pub fn add_dcid_at(
    s: Ids,
    cid: ConnectionId,
    seq: u64,
    token: ResetToken,
    retire_prior_to: u64,
) -> RetiredParts
    ensures { RetiredLeaves (put_lowered result.dcids result.dcids_to_retire result.largest_peer_retire_prior_to s) result.answer (retired_call s (id_formed cid) (C.AddDcid cid seq token.bytes retire_prior_to)) }
{
    match forms::checked(&s, values::cid_formed(cid)) {
        Ok(f) => adds::add_dcid_step(f, cid, seq, token, retire_prior_to),
        Err(refusal) => adds::unchanged(&s, Err(refusal)),
    }
}

// A RETIRE_CONNECTION_ID frame: the answer is the path that used the ID.
pub fn retire_scid_at(s: Ids, seq: u64, packet: ConnectionId) -> FreedParts
    ensures { FreedLeaves (put_source_rpt result.scids result.retire_prior_to s) result.answer (freed_call s (id_formed packet) (C.RetireScid seq packet)) }
{
    match forms::checked(&s, values::cid_formed(packet)) {
        Ok(f) => issues::retire_scid_step(f, seq, packet),
        Err(refusal) => issues::none_freed(s.scids, s.retire_prior_to, refusal),
    }
}

// The source sequence is to be announced, or no longer.
pub fn mark_scid_to_advertise_at(s: Ids, seq: u64, on: bool) -> QueueParts
    ensures { Leaves (put_advertise result.queue s) result.answer (done_call s true (C.MarkScidToAdvertise seq on)) }
{
    match ids_state::checked(&s) {
        Ok(_) => marks::queue_step(s.scids_to_advertise, seq, on),
        Err(refusal) => QueueParts {
            queue: s.scids_to_advertise,
            answer: Done::from(Err(refusal)),
        },
    }
}

// The destination sequence is to be retired, or no longer.
pub fn mark_dcid_to_retire_at(s: Ids, seq: u64, on: bool) -> QueueParts
    ensures { Leaves (put_retire result.queue s) result.answer (done_call s true (C.MarkDcidToRetire seq on)) }
{
    match ids_state::checked(&s) {
        Ok(_) => marks::queue_step(s.dcids_to_retire, seq, on),
        Err(refusal) => QueueParts {
            queue: s.dcids_to_retire,
            answer: Done::from(Err(refusal)),
        },
    }
}
