// The published calls of the ids, over a state that the host lends: the answer is the call's answer, and the state is left as the call leaves it. A call
// stores the fields that it may change.
ghost use Rattle.std.specs.Prelude.{◌≡◌};
ghost use Rattle.ids.specs.Runs as R;
ghost use Rattle.ids.specs.Reading.{fresh_ids};
ghost use Rattle.ids_rules.specs.Calls as C;

use ids::{DoneOut, FoundAnswer, FrameAnswer, ItemAnswer, RetiredAnswer};
use ids_state::Ids;
use values::{ConnectionId, Counted, Done, Flagged, Numbered, ResetToken, Token};

// One source ID, with sequence 0, on its path. A refused call gives the all-zero state.
#[unsafe(no_mangle)]
pub extern "C" fn vig_ids_fresh(
    dcid_limit: u64,
    cid: ConnectionId,
    path: u64,
    token: Token,
) -> DoneOut
    ensures { result ≡ fresh_ids dcid_limit cid path token }
{
    ids::fresh(dcid_limit, cid, path, token)
}

// The destination table holds the ID alone, with sequence 0.
#[unsafe(no_mangle)]
pub extern "C" fn vig_ids_set_initial_dcid(
    t: &mut Ids,
    cid: ConnectionId,
    token: Token,
    has_path: bool,
    path: u64,
) -> Done
    ensures { R.Done (record { ids = t.new; answer = result }) ≡ R.result t.old (R.SetInitialDcid cid token has_path path) }
{
    let a = ids::set_initial_dcid_at(*t, cid, token, has_path, path);
    t.dcids = a.dcids;
    t.zero_length_dcid = a.zero_length_dcid;
    a.answer
}

// The most source IDs that the peer allows, clamped to 2..16.
#[unsafe(no_mangle)]
pub extern "C" fn vig_ids_set_scid_limit(t: &mut Ids, n: u64) -> Done
    ensures { R.Done (record { ids = t.new; answer = result }) ≡ R.result t.old (R.SetScidLimit n) }
{
    let a = ids::set_scid_limit_at(*t, n);
    t.scid_limit = a.scid_limit;
    t.scid_capacity = a.scid_capacity;
    a.answer
}

// The source item with the sequence.
#[unsafe(no_mangle)]
pub extern "C" fn vig_ids_get_scid(t: &Ids, seq: u64) -> ItemAnswer
    ensures { R.AnItem result ≡ R.result t.now (R.Reads (C.GetScid seq)) }
{
    ids::get_scid(*t, seq)
}

// The destination item with the sequence.
#[unsafe(no_mangle)]
pub extern "C" fn vig_ids_get_dcid(t: &Ids, seq: u64) -> ItemAnswer
    ensures { R.AnItem result ≡ R.result t.now (R.Reads (C.GetDcid seq)) }
{
    ids::get_dcid(*t, seq)
}

// The sequence and the path of the first source item with the ID.
#[unsafe(no_mangle)]
pub extern "C" fn vig_ids_find_scid(t: &Ids, cid: ConnectionId) -> FoundAnswer
    ensures { R.AFound result ≡ R.result t.now (R.Reads (C.FindScid cid)) }
{
    ids::find_scid(*t, cid)
}

// The source item is used by the path.
#[unsafe(no_mangle)]
pub extern "C" fn vig_ids_mark_scid_used(t: &mut Ids, seq: u64, path: u64) -> Done
    ensures { R.Done (record { ids = t.new; answer = result }) ≡ R.result t.old (R.MarkScidUsed seq path) }
{
    let a = ids::mark_scid_used_at(*t, seq, path);
    t.scids = a.table;
    a.answer
}

// The destination item is used by the path.
#[unsafe(no_mangle)]
pub extern "C" fn vig_ids_mark_dcid_used(t: &mut Ids, seq: u64, path: u64) -> Done
    ensures { R.Done (record { ids = t.new; answer = result }) ≡ R.result t.old (R.MarkDcidUsed seq path) }
{
    let a = ids::mark_dcid_used_at(*t, seq, path);
    t.dcids = a.table;
    a.answer
}

// How many source IDs no path uses.
#[unsafe(no_mangle)]
pub extern "C" fn vig_ids_unused_scids(t: &Ids) -> Counted
    ensures { R.ACount result ≡ R.result t.now (R.Reads C.UnusedScids) }
{
    ids::unused_scids(*t)
}

// How many destination IDs no path uses: none where they have zero length.
#[unsafe(no_mangle)]
pub extern "C" fn vig_ids_unused_dcids(t: &Ids) -> Counted
    ensures { R.ACount result ≡ R.result t.now (R.Reads C.UnusedDcids) }
{
    ids::unused_dcids(*t)
}

// The lowest destination sequence that no path uses.
#[unsafe(no_mangle)]
pub extern "C" fn vig_ids_lowest_unused_dcid_seq(t: &Ids) -> Numbered
    ensures { R.ANumber result ≡ R.result t.now (R.Reads C.LowestUnusedDcidSeq) }
{
    ids::lowest_unused_dcid_seq(*t)
}

// A new source ID, at the end of the table: the answer is its sequence.
#[unsafe(no_mangle)]
pub extern "C" fn vig_ids_add_scid(
    t: &mut Ids,
    cid: ConnectionId,
    token: Token,
    advertise: bool,
    has_path: bool,
    path: u64,
    retire_if_needed: bool,
) -> Counted
    ensures { R.Issued (record { ids = t.new; answer = result }) ≡ R.result t.old (R.AddScid cid token advertise has_path path retire_if_needed) }
{
    let a = ids::add_scid_at(*t, cid, token, advertise, has_path, path, retire_if_needed);
    t.scids = a.scids;
    t.scids_to_advertise = a.scids_to_advertise;
    t.next_scid_seq = a.next_scid_seq;
    t.retire_prior_to = a.retire_prior_to;
    a.answer
}

// A NEW_CONNECTION_ID frame: the answer is what it retired of the IDs in use. One below an earlier Retire Prior To gives no ID: it is queued to be retired, or
// waits there already and changes nothing [10].
#[unsafe(no_mangle)]
pub extern "C" fn vig_ids_add_dcid(
    t: &mut Ids,
    cid: ConnectionId,
    seq: u64,
    token: ResetToken,
    retire_prior_to: u64,
) -> RetiredAnswer
    ensures { R.Retired (record { ids = t.new; answer = result }) ≡ R.result t.old (R.AddDcid cid seq token retire_prior_to) }
{
    let a = ids::add_dcid_at(*t, cid, seq, token, retire_prior_to);
    t.dcids = a.dcids;
    t.dcids_to_retire = a.dcids_to_retire;
    t.largest_peer_retire_prior_to = a.largest_peer_retire_prior_to;
    a.answer
}

// A RETIRE_CONNECTION_ID frame: the answer is the path that used the ID.
#[unsafe(no_mangle)]
pub extern "C" fn vig_ids_retire_scid(t: &mut Ids, seq: u64, packet: ConnectionId) -> Numbered
    ensures { R.Freed (record { ids = t.new; answer = result }) ≡ R.result t.old (R.RetireScid seq packet) }
{
    let a = ids::retire_scid_at(*t, seq, packet);
    t.scids = a.scids;
    t.retire_prior_to = a.retire_prior_to;
    a.answer
}

// The source sequence is to be announced, or no longer.
#[unsafe(no_mangle)]
pub extern "C" fn vig_ids_mark_scid_to_advertise(t: &mut Ids, seq: u64, on: bool) -> Done
    ensures { R.Done (record { ids = t.new; answer = result }) ≡ R.result t.old (R.MarkScidToAdvertise seq on) }
{
    let a = ids::mark_scid_to_advertise_at(*t, seq, on);
    t.scids_to_advertise = a.queue;
    a.answer
}

// The destination sequence is to be retired, or no longer.
#[unsafe(no_mangle)]
pub extern "C" fn vig_ids_mark_dcid_to_retire(t: &mut Ids, seq: u64, on: bool) -> Done
    ensures { R.Done (record { ids = t.new; answer = result }) ≡ R.result t.old (R.MarkDcidToRetire seq on) }
{
    let a = ids::mark_dcid_to_retire_at(*t, seq, on);
    t.dcids_to_retire = a.queue;
    a.answer
}

// The source sequence that is to be announced next.
#[unsafe(no_mangle)]
pub extern "C" fn vig_ids_next_scid_to_advertise(t: &Ids) -> Numbered
    ensures { R.ANumber result ≡ R.result t.now (R.Reads C.NextScidToAdvertise) }
{
    ids::next_scid_to_advertise(*t)
}

// The destination sequence that is to be retired next.
#[unsafe(no_mangle)]
pub extern "C" fn vig_ids_next_dcid_to_retire(t: &Ids) -> Numbered
    ensures { R.ANumber result ≡ R.result t.now (R.Reads C.NextDcidToRetire) }
{
    ids::next_dcid_to_retire(*t)
}

// The frame that announces the source ID.
#[unsafe(no_mangle)]
pub extern "C" fn vig_ids_create_new_connection_id_frame(t: &Ids, seq: u64) -> FrameAnswer
    ensures { R.AFrame result ≡ R.result t.now (R.Reads (C.CreateNewConnectionIdFrame seq)) }
{
    ids::create_new_connection_id_frame(*t, seq)
}

// Whether one of the queues has an entry.
#[unsafe(no_mangle)]
pub extern "C" fn vig_ids_need_send_cid_control_frames(t: &Ids) -> Flagged
    ensures { R.AFlag result ≡ R.result t.now (R.Reads C.NeedSendCidControlFrames) }
{
    ids::need_send_cid_control_frames(*t)
}

// Whether the first destination ID was empty.
#[unsafe(no_mangle)]
pub extern "C" fn vig_ids_zero_length_dcid(t: &Ids) -> Flagged
    ensures { R.AFlag result ≡ R.result t.now (R.Reads C.ZeroLengthDcid) }
{
    ids::zero_length_dcid(*t)
}

// Whether our first source ID was empty.
#[unsafe(no_mangle)]
pub extern "C" fn vig_ids_zero_length_scid(t: &Ids) -> Flagged
    ensures { R.AFlag result ≡ R.result t.now (R.Reads C.ZeroLengthScid) }
{
    ids::zero_length_scid(*t)
}

#[unsafe(no_mangle)]
pub extern "C" fn vig_ids_dcid_count(t: &Ids) -> Counted
    ensures { R.ACount result ≡ R.result t.now (R.Reads C.DcidCount) }
{
    ids::dcid_count(*t)
}

#[unsafe(no_mangle)]
pub extern "C" fn vig_ids_dcid_at(t: &Ids, place: u64) -> ItemAnswer
    ensures { R.AnItem result ≡ R.result t.now (R.Reads (C.DcidAt place)) }
{
    ids::dcid_at(*t, place)
}

// In place of the Rust's iterators: the count of each table, and the item at a place.
#[unsafe(no_mangle)]
pub extern "C" fn vig_ids_scid_count(t: &Ids) -> Counted
    ensures { R.ACount result ≡ R.result t.now (R.Reads C.ScidCount) }
{
    ids::scid_count(*t)
}

#[unsafe(no_mangle)]
pub extern "C" fn vig_ids_scid_at(t: &Ids, place: u64) -> ItemAnswer
    ensures { R.AnItem result ≡ R.result t.now (R.Reads (C.ScidAt place)) }
{
    ids::scid_at(*t, place)
}
