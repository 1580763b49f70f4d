// The published calls of the paths, over a state that the host lends: the answer is the call's answer, and the state is left as the call leaves it.
ghost use Rattle.std.specs.Prelude.{◌≡◌};
ghost use Rattle.paths.specs.Runs as R;

use paths::{AddressAnswer, DoneOut, FoundAnswer, PathAnswer, RespondedAnswer};
use paths_state::Paths;
use values::{Counted, Done, Flagged, FourTuple, Moment, Numbered, Timed};

#[unsafe(no_mangle)]
pub extern "C" fn vig_paths_local_addr(t: &Paths, id: u64) -> AddressAnswer
    ensures { R.AnAddress result ≡ R.result t.now (R.LocalAddr id) }
{
    paths::local_addr(*t, id)
}

#[unsafe(no_mangle)]
pub extern "C" fn vig_paths_remote_addr(t: &Paths, id: u64) -> AddressAnswer
    ensures { R.AnAddress result ≡ R.result t.now (R.RemoteAddr id) }
{
    paths::remote_addr(*t, id)
}

// The oldest challenge received is taken out: the answer is its data.
#[unsafe(no_mangle)]
pub extern "C" fn vig_paths_pop_recv_chal(t: &mut Paths, id: u64) -> Numbered
    ensures { R.Popped (record { paths = t.new; answer = result }) ≡ R.result t.old (R.PopRecvChal id) }
{
    let a = paths::pop_recv_chal_at(*t, id);
    let i = a.place;
    let y = a.path;
    t.items[i] = y;
    a.answer
}

// Whether a challenge is asked for.
#[unsafe(no_mangle)]
pub extern "C" fn vig_paths_path_chal_initiated(t: &Paths, id: u64) -> Flagged
    ensures { R.AFlag result ≡ R.result t.now (R.PathChalInitiated id) }
{
    paths::path_chal_initiated(*t, id)
}

// A challenge is asked for.
#[unsafe(no_mangle)]
pub extern "C" fn vig_paths_initiate_path_chal(t: &mut Paths, id: u64) -> Done
    ensures { R.Done (record { paths = t.new; answer = result }) ≡ R.result t.old (R.InitiatePathChal id) }
{
    let a = paths::initiate_path_chal_at(*t, id);
    let i = a.place;
    let y = a.path;
    t.items[i] = y;
    a.answer
}

// Whether a challenge or a response is to be sent, and a server has the credit for it.
#[unsafe(no_mangle)]
pub extern "C" fn vig_paths_need_send_validation_frames(t: &Paths, id: u64) -> Flagged
    ensures { R.AFlag result ≡ R.result t.now (R.NeedSendValidationFrames id) }
{
    paths::need_send_validation_frames(*t, id)
}

// Whether packets on the path are to be expanded. Of a refusal's zero path nothing is said.
#[unsafe(no_mangle)]
pub extern "C" fn vig_paths_need_expand_padding_frames(t: &Paths, id: u64) -> Flagged
    ensures { R.AFlag result ≡ R.result t.now (R.NeedExpandPaddingFrames id) }
{
    paths::need_expand_padding_frames(*t, id)
}

#[unsafe(no_mangle)]
pub extern "C" fn vig_paths_validated(t: &Paths, id: u64) -> Flagged
    ensures { R.AFlag result ≡ R.result t.now (R.Validated id) }
{
    paths::validated(*t, id)
}

// Whether the path has the active flag and a destination sequence.
#[unsafe(no_mangle)]
pub extern "C" fn vig_paths_active(t: &Paths, id: u64) -> Flagged
    ensures { R.AFlag result ≡ R.result t.now (R.Active id) }
{
    paths::active(*t, id)
}

#[unsafe(no_mangle)]
pub extern "C" fn vig_paths_set_active(t: &mut Paths, id: u64, on: bool) -> Done
    ensures { R.Done (record { paths = t.new; answer = result }) ≡ R.result t.old (R.SetActive id on) }
{
    let a = paths::set_active_at(*t, id, on);
    let i = a.place;
    let y = a.path;
    t.items[i] = y;
    a.answer
}

// The rank of the path's state.
#[unsafe(no_mangle)]
pub extern "C" fn vig_paths_state(t: &Paths, id: u64) -> Counted
    ensures { R.ACount result ≡ R.result t.now (R.State id) }
{
    paths::state(*t, id)
}

// The source sequence that the path uses, or none: then it is 0.
#[unsafe(no_mangle)]
pub extern "C" fn vig_paths_set_scid_seq(t: &mut Paths, id: u64, has_seq: bool, seq: u64) -> Done
    ensures { R.Done (record { paths = t.new; answer = result }) ≡ R.result t.old (R.SetScidSeq id has_seq seq) }
{
    let a = paths::set_scid_seq_at(*t, id, has_seq, seq);
    let i = a.place;
    let y = a.path;
    t.items[i] = y;
    a.answer
}

// The destination sequence that the path uses, or none: then it is 0.
#[unsafe(no_mangle)]
pub extern "C" fn vig_paths_set_dcid_seq(t: &mut Paths, id: u64, has_seq: bool, seq: u64) -> Done
    ensures { R.Done (record { paths = t.new; answer = result }) ≡ R.result t.old (R.SetDcidSeq id has_seq seq) }
{
    let a = paths::set_dcid_seq_at(*t, id, has_seq, seq);
    let i = a.place;
    let y = a.path;
    t.items[i] = y;
    a.answer
}

// The peer's address is verified.
#[unsafe(no_mangle)]
pub extern "C" fn vig_paths_mark_verified(t: &mut Paths, id: u64) -> Done
    ensures { R.Done (record { paths = t.new; answer = result }) ≡ R.result t.old (R.MarkVerified id) }
{
    let a = paths::mark_verified_at(*t, id);
    let i = a.place;
    let y = a.path;
    t.items[i] = y;
    a.answer
}

// One path, Validated and active, with the id 0. A refused call gives the all-zero state.
#[unsafe(no_mangle)]
pub extern "C" fn vig_paths_fresh(
    pair: FourTuple,
    max_datagram_size: u64,
    limit: u64,
    factor: u64,
    server: bool,
) -> DoneOut
    ensures { result ≡ R.fresh_paths pair max_datagram_size limit factor server }
{
    paths::fresh(pair, max_datagram_size, limit, factor, server)
}

// The path with the id.
#[unsafe(no_mangle)]
pub extern "C" fn vig_paths_get(t: &Paths, id: u64) -> PathAnswer
    ensures { R.APath result ≡ R.result t.now (R.Get id) }
{
    paths::get(*t, id)
}

// The id of the path that is listed with the pair.
#[unsafe(no_mangle)]
pub extern "C" fn vig_paths_get_path_id(t: &Paths, pair: FourTuple) -> Numbered
    ensures { R.ANumber result ≡ R.result t.now (R.GetPathId pair) }
{
    paths::get_path_id(*t, pair)
}

// The first path with the active flag.
#[unsafe(no_mangle)]
pub extern "C" fn vig_paths_get_active(t: &Paths) -> FoundAnswer
    ensures { R.AFound result ≡ R.result t.now R.GetActive }
{
    paths::get_active(*t)
}

// A new path: the answer is its id.
#[unsafe(no_mangle)]
pub extern "C" fn vig_paths_insert_path(
    t: &mut Paths,
    pair: FourTuple,
    max_datagram_size: u64,
) -> Counted
    ensures { R.Insertion (record { paths = t.new; answer = result }) ≡ R.result t.old (R.InsertPath pair max_datagram_size) }
{
    let a = paths::insert_path(*t, pair, max_datagram_size);
    *t = a.paths;
    a.answer
}

// How many paths there are.
#[unsafe(no_mangle)]
pub extern "C" fn vig_paths_len(t: &Paths) -> Counted
    ensures { R.ACount result ≡ R.result t.now R.Len }
{
    paths::len(*t)
}

// A PATH_CHALLENGE frame came.
#[unsafe(no_mangle)]
pub extern "C" fn vig_paths_on_path_chal_received(t: &mut Paths, id: u64, data: u64) -> Done
    ensures { R.Done (record { paths = t.new; answer = result }) ≡ R.result t.old (R.OnPathChalReceived id «data») }
{
    let a = paths::on_path_chal_received_at(*t, id, data);
    let i = a.place;
    let y = a.path;
    t.items[i] = y;
    a.answer
}

// A PATH_RESPONSE frame came: the answer is whether the path is now Validated, and a span for each challenge that it matched; by one that matches none, nothing
// changes [2].
#[unsafe(no_mangle)]
pub extern "C" fn vig_paths_on_path_resp_received(
    t: &mut Paths,
    id: u64,
    data: u64,
    moment: Moment,
) -> RespondedAnswer
    ensures { R.Response (record { paths = t.new; answer = result }) ≡ R.result t.old (R.OnPathRespReceived id «data» moment) }
{
    let a = paths::on_path_resp_received_at(*t, id, data, moment);
    let i = a.place;
    let y = a.path;
    t.items[i] = y;
    a.answer
}

// A PATH_CHALLENGE frame was sent in a packet of that size.
#[unsafe(no_mangle)]
pub extern "C" fn vig_paths_on_path_chal_sent(
    t: &mut Paths,
    id: u64,
    data: u64,
    size: u64,
    sent: Moment,
) -> Done
    ensures { R.Done (record { paths = t.new; answer = result }) ≡ R.result t.old (R.OnPathChalSent id «data» size sent) }
{
    let a = paths::on_path_chal_sent_at(*t, id, data, size, sent);
    let i = a.place;
    let y = a.path;
    t.items[i] = y;
    a.answer
}

// Challenges that are due count as lost, on every path that is being validated.
#[unsafe(no_mangle)]
pub extern "C" fn vig_paths_on_path_chal_timeout(t: &mut Paths, moment: Moment) -> Done
    ensures { R.Done (record { paths = t.new; answer = result }) ≡ R.result t.old (R.OnPathChalTimeout moment) }
{
    let a = paths::on_path_chal_timeout(*t, moment);
    *t = a.paths;
    a.answer
}

// The least front deadline.
#[unsafe(no_mangle)]
pub extern "C" fn vig_paths_min_path_chal_timer(t: &Paths) -> Timed
    ensures { R.ATime result ≡ R.result t.now R.MinPathChalTimer }
{
    paths::min_path_chal_timer(*t)
}

// Bytes came: a server's credit on a path that is not verified rises by factor x length.
#[unsafe(no_mangle)]
pub extern "C" fn vig_paths_inc_anti_ampl_limit(t: &mut Paths, id: u64, length: u64) -> Done
    ensures { R.Done (record { paths = t.new; answer = result }) ≡ R.result t.old (R.IncAntiAmplLimit id length) }
{
    let a = paths::inc_anti_ampl_limit_at(*t, id, length);
    let i = a.place;
    let y = a.path;
    t.items[i] = y;
    a.answer
}

// Bytes were sent: the credit falls by the length.
#[unsafe(no_mangle)]
pub extern "C" fn vig_paths_dec_anti_ampl_limit(t: &mut Paths, id: u64, length: u64) -> Done
    ensures { R.Done (record { paths = t.new; answer = result }) ≡ R.result t.old (R.DecAntiAmplLimit id length) }
{
    let a = paths::dec_anti_ampl_limit_at(*t, id, length);
    let i = a.place;
    let y = a.path;
    t.items[i] = y;
    a.answer
}

// How much of the wish may be sent.
#[unsafe(no_mangle)]
pub extern "C" fn vig_paths_cmp_anti_ampl_limit(t: &Paths, id: u64, wish: u64) -> Counted
    ensures { R.ACount result ≡ R.result t.now (R.CmpAntiAmplLimit id wish) }
{
    paths::cmp_anti_ampl_limit(*t, id, wish)
}

// A ping is asked for; an absent pair is zero.
#[unsafe(no_mangle)]
pub extern "C" fn vig_paths_mark_ping(t: &mut Paths, has_pair: bool, pair: FourTuple) -> Done
    ensures { R.Done (record { paths = t.new; answer = result }) ≡ R.result t.old (R.MarkPing has_pair pair) }
{
    let a = paths::mark_ping(*t, has_pair, pair);
    *t = a.paths;
    a.answer
}

// Multipath is on from here.
#[unsafe(no_mangle)]
pub extern "C" fn vig_paths_enable_multipath(t: &mut Paths) -> Done
    ensures { R.Done (record { paths = t.new; answer = result }) ≡ R.result t.old R.EnableMultipath }
{
    let a = paths::enable_multipath(*t);
    *t = a.paths;
    a.answer
}
