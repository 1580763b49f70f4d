// The published calls of the IDs, by value.
ghost use Rattle.std.specs.Prelude.{◌≡◌};
ghost use Rattle.ids.specs.Runs as R;
ghost use Rattle.ids.specs.Reading.{fresh_ids};
ghost use Rattle.ids_rules.specs.Calls as C;

use ids::{DoneOut, FoundAnswer, FrameAnswer, FreedOut, IssuedOut, ItemAnswer, RetiredOut};
use ids_state::Ids;
use values::{ConnectionId, Counted, Flagged, Numbered, ResetToken, Token};

#[unsafe(no_mangle)]
pub extern "C" fn val_ids_fresh(
    dcid_limit: u64,
    cid: ConnectionId,
    path: u64,
    token: Token,
) -> DoneOut
    ensures { result ≡ fresh_ids dcid_limit cid path token }
{
    ids::fresh(dcid_limit, cid, path, token)
}

#[unsafe(no_mangle)]
pub extern "C" fn val_ids_set_initial_dcid(
    s: Ids,
    cid: ConnectionId,
    token: Token,
    has_path: bool,
    path: u64,
) -> DoneOut
    ensures { R.Done result ≡ R.result s (R.SetInitialDcid cid token has_path path) }
{
    ids::set_initial_dcid(s, cid, token, has_path, path)
}

#[unsafe(no_mangle)]
pub extern "C" fn val_ids_set_scid_limit(s: Ids, n: u64) -> DoneOut
    ensures { R.Done result ≡ R.result s (R.SetScidLimit n) }
{
    ids::set_scid_limit(s, n)
}

#[unsafe(no_mangle)]
pub extern "C" fn val_ids_get_scid(s: Ids, seq: u64) -> ItemAnswer
    ensures { R.AnItem result ≡ R.result s (R.Reads (C.GetScid seq)) }
{
    ids::get_scid(s, seq)
}

#[unsafe(no_mangle)]
pub extern "C" fn val_ids_get_dcid(s: Ids, seq: u64) -> ItemAnswer
    ensures { R.AnItem result ≡ R.result s (R.Reads (C.GetDcid seq)) }
{
    ids::get_dcid(s, seq)
}

#[unsafe(no_mangle)]
pub extern "C" fn val_ids_find_scid(s: Ids, cid: ConnectionId) -> FoundAnswer
    ensures { R.AFound result ≡ R.result s (R.Reads (C.FindScid cid)) }
{
    ids::find_scid(s, cid)
}

#[unsafe(no_mangle)]
pub extern "C" fn val_ids_mark_scid_used(s: Ids, seq: u64, path: u64) -> DoneOut
    ensures { R.Done result ≡ R.result s (R.MarkScidUsed seq path) }
{
    ids::mark_scid_used(s, seq, path)
}

#[unsafe(no_mangle)]
pub extern "C" fn val_ids_mark_dcid_used(s: Ids, seq: u64, path: u64) -> DoneOut
    ensures { R.Done result ≡ R.result s (R.MarkDcidUsed seq path) }
{
    ids::mark_dcid_used(s, seq, path)
}

#[unsafe(no_mangle)]
pub extern "C" fn val_ids_unused_scids(s: Ids) -> Counted
    ensures { R.ACount result ≡ R.result s (R.Reads C.UnusedScids) }
{
    ids::unused_scids(s)
}

#[unsafe(no_mangle)]
pub extern "C" fn val_ids_unused_dcids(s: Ids) -> Counted
    ensures { R.ACount result ≡ R.result s (R.Reads C.UnusedDcids) }
{
    ids::unused_dcids(s)
}

#[unsafe(no_mangle)]
pub extern "C" fn val_ids_lowest_unused_dcid_seq(s: Ids) -> Numbered
    ensures { R.ANumber result ≡ R.result s (R.Reads C.LowestUnusedDcidSeq) }
{
    ids::lowest_unused_dcid_seq(s)
}

#[unsafe(no_mangle)]
pub extern "C" fn val_ids_add_scid(
    s: Ids,
    cid: ConnectionId,
    token: Token,
    advertise: bool,
    has_path: bool,
    path: u64,
    retire_if_needed: bool,
) -> IssuedOut
    ensures { R.Issued result ≡ R.result s (R.AddScid cid token advertise has_path path retire_if_needed) }
{
    ids::add_scid(s, cid, token, advertise, has_path, path, retire_if_needed)
}

#[unsafe(no_mangle)]
pub extern "C" fn val_ids_add_dcid(
    s: Ids,
    cid: ConnectionId,
    seq: u64,
    token: ResetToken,
    retire_prior_to: u64,
) -> RetiredOut
    ensures { R.Retired result ≡ R.result s (R.AddDcid cid seq token retire_prior_to) }
{
    ids::add_dcid(s, cid, seq, token, retire_prior_to)
}

#[unsafe(no_mangle)]
pub extern "C" fn val_ids_retire_scid(s: Ids, seq: u64, packet: ConnectionId) -> FreedOut
    ensures { R.Freed result ≡ R.result s (R.RetireScid seq packet) }
{
    ids::retire_scid(s, seq, packet)
}

#[unsafe(no_mangle)]
pub extern "C" fn val_ids_mark_scid_to_advertise(s: Ids, seq: u64, on: bool) -> DoneOut
    ensures { R.Done result ≡ R.result s (R.MarkScidToAdvertise seq on) }
{
    ids::mark_scid_to_advertise(s, seq, on)
}

#[unsafe(no_mangle)]
pub extern "C" fn val_ids_mark_dcid_to_retire(s: Ids, seq: u64, on: bool) -> DoneOut
    ensures { R.Done result ≡ R.result s (R.MarkDcidToRetire seq on) }
{
    ids::mark_dcid_to_retire(s, seq, on)
}

#[unsafe(no_mangle)]
pub extern "C" fn val_ids_next_scid_to_advertise(s: Ids) -> Numbered
    ensures { R.ANumber result ≡ R.result s (R.Reads C.NextScidToAdvertise) }
{
    ids::next_scid_to_advertise(s)
}

#[unsafe(no_mangle)]
pub extern "C" fn val_ids_next_dcid_to_retire(s: Ids) -> Numbered
    ensures { R.ANumber result ≡ R.result s (R.Reads C.NextDcidToRetire) }
{
    ids::next_dcid_to_retire(s)
}

#[unsafe(no_mangle)]
pub extern "C" fn val_ids_create_new_connection_id_frame(s: Ids, seq: u64) -> FrameAnswer
    ensures { R.AFrame result ≡ R.result s (R.Reads (C.CreateNewConnectionIdFrame seq)) }
{
    ids::create_new_connection_id_frame(s, seq)
}

#[unsafe(no_mangle)]
pub extern "C" fn val_ids_need_send_cid_control_frames(s: Ids) -> Flagged
    ensures { R.AFlag result ≡ R.result s (R.Reads C.NeedSendCidControlFrames) }
{
    ids::need_send_cid_control_frames(s)
}

#[unsafe(no_mangle)]
pub extern "C" fn val_ids_zero_length_dcid(s: Ids) -> Flagged
    ensures { R.AFlag result ≡ R.result s (R.Reads C.ZeroLengthDcid) }
{
    ids::zero_length_dcid(s)
}

#[unsafe(no_mangle)]
pub extern "C" fn val_ids_zero_length_scid(s: Ids) -> Flagged
    ensures { R.AFlag result ≡ R.result s (R.Reads C.ZeroLengthScid) }
{
    ids::zero_length_scid(s)
}

#[unsafe(no_mangle)]
pub extern "C" fn val_ids_dcid_count(s: Ids) -> Counted
    ensures { R.ACount result ≡ R.result s (R.Reads C.DcidCount) }
{
    ids::dcid_count(s)
}

#[unsafe(no_mangle)]
pub extern "C" fn val_ids_dcid_at(s: Ids, place: u64) -> ItemAnswer
    ensures { R.AnItem result ≡ R.result s (R.Reads (C.DcidAt place)) }
{
    ids::dcid_at(s, place)
}

#[unsafe(no_mangle)]
pub extern "C" fn val_ids_scid_count(s: Ids) -> Counted
    ensures { R.ACount result ≡ R.result s (R.Reads C.ScidCount) }
{
    ids::scid_count(s)
}

#[unsafe(no_mangle)]
pub extern "C" fn val_ids_scid_at(s: Ids, place: u64) -> ItemAnswer
    ensures { R.AnItem result ≡ R.result s (R.Reads (C.ScidAt place)) }
{
    ids::scid_at(s, place)
}
