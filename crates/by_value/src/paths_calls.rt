// The published calls of the paths, by value.
ghost use Rattle.std.specs.Prelude.{◌≡◌};
ghost use Rattle.paths.specs.Runs as R;

use paths::{
    AddressAnswer, DoneOut, FoundAnswer, InsertedOut, PathAnswer, PoppedOut, RespondedOut,
};
use paths_state::Paths;
use values::{Counted, Flagged, FourTuple, Moment, Numbered, Timed};

#[unsafe(no_mangle)]
pub extern "C" fn val_paths_local_addr(t: Paths, id: u64) -> AddressAnswer
    ensures { R.AnAddress result ≡ R.result t (R.LocalAddr id) }
{
    paths::local_addr(t, id)
}

#[unsafe(no_mangle)]
pub extern "C" fn val_paths_remote_addr(t: Paths, id: u64) -> AddressAnswer
    ensures { R.AnAddress result ≡ R.result t (R.RemoteAddr id) }
{
    paths::remote_addr(t, id)
}

#[unsafe(no_mangle)]
pub extern "C" fn val_paths_pop_recv_chal(t: Paths, id: u64) -> PoppedOut
    ensures { R.Popped result ≡ R.result t (R.PopRecvChal id) }
{
    paths::pop_recv_chal(t, id)
}

#[unsafe(no_mangle)]
pub extern "C" fn val_paths_path_chal_initiated(t: Paths, id: u64) -> Flagged
    ensures { R.AFlag result ≡ R.result t (R.PathChalInitiated id) }
{
    paths::path_chal_initiated(t, id)
}

#[unsafe(no_mangle)]
pub extern "C" fn val_paths_initiate_path_chal(t: Paths, id: u64) -> DoneOut
    ensures { R.Done result ≡ R.result t (R.InitiatePathChal id) }
{
    paths::initiate_path_chal(t, id)
}

#[unsafe(no_mangle)]
pub extern "C" fn val_paths_need_send_validation_frames(t: Paths, id: u64) -> Flagged
    ensures { R.AFlag result ≡ R.result t (R.NeedSendValidationFrames id) }
{
    paths::need_send_validation_frames(t, id)
}

#[unsafe(no_mangle)]
pub extern "C" fn val_paths_need_expand_padding_frames(t: Paths, id: u64) -> Flagged
    ensures { R.AFlag result ≡ R.result t (R.NeedExpandPaddingFrames id) }
{
    paths::need_expand_padding_frames(t, id)
}

#[unsafe(no_mangle)]
pub extern "C" fn val_paths_validated(t: Paths, id: u64) -> Flagged
    ensures { R.AFlag result ≡ R.result t (R.Validated id) }
{
    paths::validated(t, id)
}

#[unsafe(no_mangle)]
pub extern "C" fn val_paths_active(t: Paths, id: u64) -> Flagged
    ensures { R.AFlag result ≡ R.result t (R.Active id) }
{
    paths::active(t, id)
}

#[unsafe(no_mangle)]
pub extern "C" fn val_paths_set_active(t: Paths, id: u64, on: bool) -> DoneOut
    ensures { R.Done result ≡ R.result t (R.SetActive id on) }
{
    paths::set_active(t, id, on)
}

#[unsafe(no_mangle)]
pub extern "C" fn val_paths_state(t: Paths, id: u64) -> Counted
    ensures { R.ACount result ≡ R.result t (R.State id) }
{
    paths::state(t, id)
}

#[unsafe(no_mangle)]
pub extern "C" fn val_paths_set_scid_seq(t: Paths, id: u64, has_seq: bool, seq: u64) -> DoneOut
    ensures { R.Done result ≡ R.result t (R.SetScidSeq id has_seq seq) }
{
    paths::set_scid_seq(t, id, has_seq, seq)
}

#[unsafe(no_mangle)]
pub extern "C" fn val_paths_set_dcid_seq(t: Paths, id: u64, has_seq: bool, seq: u64) -> DoneOut
    ensures { R.Done result ≡ R.result t (R.SetDcidSeq id has_seq seq) }
{
    paths::set_dcid_seq(t, id, has_seq, seq)
}

#[unsafe(no_mangle)]
pub extern "C" fn val_paths_mark_verified(t: Paths, id: u64) -> DoneOut
    ensures { R.Done result ≡ R.result t (R.MarkVerified id) }
{
    paths::mark_verified(t, id)
}

#[unsafe(no_mangle)]
pub extern "C" fn val_paths_fresh(
    pair: FourTuple,
    max_datagram_size: u64,
    limit: u64,
    factor: u64,
    server: bool,
) -> DoneOut
    ensures { result ≡ R.fresh_paths pair max_datagram_size limit factor server }
{
    paths::fresh(pair, max_datagram_size, limit, factor, server)
}

#[unsafe(no_mangle)]
pub extern "C" fn val_paths_get(t: Paths, id: u64) -> PathAnswer
    ensures { R.APath result ≡ R.result t (R.Get id) }
{
    paths::get(t, id)
}

#[unsafe(no_mangle)]
pub extern "C" fn val_paths_get_path_id(t: Paths, pair: FourTuple) -> Numbered
    ensures { R.ANumber result ≡ R.result t (R.GetPathId pair) }
{
    paths::get_path_id(t, pair)
}

#[unsafe(no_mangle)]
pub extern "C" fn val_paths_get_active(t: Paths) -> FoundAnswer
    ensures { R.AFound result ≡ R.result t R.GetActive }
{
    paths::get_active(t)
}

#[unsafe(no_mangle)]
pub extern "C" fn val_paths_insert_path(
    t: Paths,
    pair: FourTuple,
    max_datagram_size: u64,
) -> InsertedOut
    ensures { R.Insertion result ≡ R.result t (R.InsertPath pair max_datagram_size) }
{
    paths::insert_path(t, pair, max_datagram_size)
}

#[unsafe(no_mangle)]
pub extern "C" fn val_paths_len(t: Paths) -> Counted
    ensures { R.ACount result ≡ R.result t R.Len }
{
    paths::len(t)
}

#[unsafe(no_mangle)]
pub extern "C" fn val_paths_on_path_chal_received(t: Paths, id: u64, data: u64) -> DoneOut
    ensures { R.Done result ≡ R.result t (R.OnPathChalReceived id «data») }
{
    paths::on_path_chal_received(t, id, data)
}

#[unsafe(no_mangle)]
pub extern "C" fn val_paths_on_path_resp_received(
    t: Paths,
    id: u64,
    data: u64,
    now: Moment,
) -> RespondedOut
    ensures { R.Response result ≡ R.result t (R.OnPathRespReceived id «data» now) }
{
    paths::on_path_resp_received(t, id, data, now)
}

#[unsafe(no_mangle)]
pub extern "C" fn val_paths_on_path_chal_sent(
    t: Paths,
    id: u64,
    data: u64,
    size: u64,
    sent: Moment,
) -> DoneOut
    ensures { R.Done result ≡ R.result t (R.OnPathChalSent id «data» size sent) }
{
    paths::on_path_chal_sent(t, id, data, size, sent)
}

#[unsafe(no_mangle)]
pub extern "C" fn val_paths_on_path_chal_timeout(t: Paths, now: Moment) -> DoneOut
    ensures { R.Done result ≡ R.result t (R.OnPathChalTimeout now) }
{
    paths::on_path_chal_timeout(t, now)
}

#[unsafe(no_mangle)]
pub extern "C" fn val_paths_min_path_chal_timer(t: Paths) -> Timed
    ensures { R.ATime result ≡ R.result t R.MinPathChalTimer }
{
    paths::min_path_chal_timer(t)
}

#[unsafe(no_mangle)]
pub extern "C" fn val_paths_inc_anti_ampl_limit(t: Paths, id: u64, length: u64) -> DoneOut
    ensures { R.Done result ≡ R.result t (R.IncAntiAmplLimit id length) }
{
    paths::inc_anti_ampl_limit(t, id, length)
}

#[unsafe(no_mangle)]
pub extern "C" fn val_paths_dec_anti_ampl_limit(t: Paths, id: u64, length: u64) -> DoneOut
    ensures { R.Done result ≡ R.result t (R.DecAntiAmplLimit id length) }
{
    paths::dec_anti_ampl_limit(t, id, length)
}

#[unsafe(no_mangle)]
pub extern "C" fn val_paths_cmp_anti_ampl_limit(t: Paths, id: u64, wish: u64) -> Counted
    ensures { R.ACount result ≡ R.result t (R.CmpAntiAmplLimit id wish) }
{
    paths::cmp_anti_ampl_limit(t, id, wish)
}

#[unsafe(no_mangle)]
pub extern "C" fn val_paths_mark_ping(t: Paths, has_pair: bool, pair: FourTuple) -> DoneOut
    ensures { R.Done result ≡ R.result t (R.MarkPing has_pair pair) }
{
    paths::mark_ping(t, has_pair, pair)
}

#[unsafe(no_mangle)]
pub extern "C" fn val_paths_enable_multipath(t: Paths) -> DoneOut
    ensures { R.Done result ≡ R.result t R.EnableMultipath }
{
    paths::enable_multipath(t)
}
