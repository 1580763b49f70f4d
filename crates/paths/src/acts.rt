// The calls on one path, as what each leaves: a path and its place (`PathParts`), and the answer. A host that lends its state has that path stored in place and
// nothing else copied. A call that is refused leaves the first path, as it stands.
// `has_seq` and `seq` are an Option as C gives it.
ghost use Rattle.std.specs.Prelude.{◌≡◌, cond, true, eqb, MatchResult};
ghost use Rattle.std.specs.Result.{ForOk};
ghost use Rattle.lists.specs.Defs.{given};
ghost use Rattle.values.specs.Refusals.{number};
ghost use Rattle.values.specs.Time.{moment_formed_of};
ghost use Rattle.paths_state.specs.Formed.{seq_formed};
ghost use Rattle.paths_rules.specs.Calls as C;
ghost use Rattle.paths_rules.specs.Path as R;
ghost use Rattle.path.specs.Reading.{path_of, path_view};
ghost use Rattle.path.specs.SendLaws.{refusal};
ghost use Rattle.paths.specs.Reading.{done_call, popped_call, responded_call, view};
ghost use Rattle.paths.specs.Acts.{Puts, PutsPopped, PutsResponded};
ghost use Rattle.paths.specs.ActLaws.{stands};
ghost use Rattle.paths.specs.CallLaws.{excused_of};
ghost use Rattle.paths.specs.Found.{Here, Missed, Unsent};

use crate::answers::{PathParts, PoppedParts, RespondedAnswer, RespondedParts};
use paths_state::{FormedPath, Path, Paths};
use values::{Done, Moment, Numbered, Refusal};

// The path with the id.
pub fn found(t: &Paths, id: u64) -> Result<FormedPath<'_>, Refusal>
    ensures { MatchResult result (λ x. Here t.now true id x.path.now) (λ e. Missed t.now true id e) }
{
    paths_state::checked(t)?.get(id)
}

// The same, where the other arguments have their forms.
fn found_if(formed: bool, t: &Paths, id: u64) -> Result<FormedPath<'_>, Refusal>
    ensures { MatchResult result (λ x. Here t.now formed id x.path.now) (λ e. Missed t.now formed id e) }
{
    values::form(formed)?;
    paths_state::checked(t)?.get(id)
}

// A refusal; of an unknown id, where the call accepts one, the answer.
pub fn excused<T: Drop>(e: Refusal, answer: T) -> Result<T, Refusal>
    ensures { result ≡ excused_of e answer }
{
    match e {
        Refusal::InternalError => Ok(answer),
        _ => Err(e),
    }
}

// What a call on one path leaves: `x` is changed, or why it is not.
fn left<X, F: FnOnce(X) -> Path>(t: &Paths, id: u64, x: Result<X, Refusal>, change: F) -> PathParts
    requires { ForOk x (F.pre change) }
    ensures { MatchResult x (λ a. F.post change a result.path × (result.place ≡ id) × (result.answer ≡ record { refusal = 0 })) (λ e. result ≡ stands t.now (number e)) }
{
    match x {
        Ok(x) => PathParts {
            path: change(x),
            place: id as usize,
            answer: Done::from(Ok(())),
        },
        Err(e) => PathParts {
            path: t.items[0],
            place: 0,
            answer: Done::from(Err(e)),
        },
    }
}

// The same, where the call accepts an unknown id: nothing changes then.
fn left_or_excused<X, F: FnOnce(X) -> Path>(
    t: &Paths,
    id: u64,
    x: Result<X, Refusal>,
    change: F,
) -> PathParts
    requires { ForOk x (F.pre change) }
    ensures { MatchResult x (λ a. F.post change a result.path × (result.place ≡ id) × (result.answer ≡ record { refusal = 0 })) (λ e. result ≡ stands t.now (cond (eqb (number e) 2) 0 (number e))) }
{
    match x {
        Ok(x) => left(t, id, Ok(x), change),
        Err(e) => PathParts {
            path: t.items[0],
            place: 0,
            answer: Done::from(excused(e, ())),
        },
    }
}

// A challenge is asked for.
pub fn initiate_path_chal_at(t: Paths, id: u64) -> PathParts
    ensures { Puts t result.path result.place result.answer (done_call t true (C.On id C.Initiate)) }
{
    left(&t, id, found(&t, id), |x| path::initiated(x))
}

// A PATH_CHALLENGE frame came.
pub fn on_path_chal_received_at(t: Paths, id: u64, data: u64) -> PathParts
    ensures { Puts t result.path result.place result.answer (done_call t true (C.On id (C.Receive «data»))) }
{
    left_or_excused(&t, id, found(&t, id), |x| path::received(x, data))
}

// A server's credit, as the bytes that came raise it.
#[tactic(auto, using(path::specs::ReadingLaws::path_is))]
fn credited(t: &Paths, x: FormedPath<'_>, length: u64) -> Path
    ensures { result ≡ path_of (C.effect (view t.now) (C.Credit length) (path_view x.entry.path.now)) }
{
    if t.is_server {
        path::gained(x, t.anti_ampl_factor, length)
    } else {
        *x.path
    }
}

// Bytes came: a server's credit on a path that is not verified rises by factor x length.
pub fn inc_anti_ampl_limit_at(t: Paths, id: u64, length: u64) -> PathParts
    ensures { Puts t result.path result.place result.answer (done_call t true (C.On id (C.Credit length))) }
{
    left_or_excused(&t, id, found(&t, id), |x| credited(&t, x, length))
}

// A server's credit, as the bytes that were sent lower it.
#[tactic(auto, using(path::specs::ReadingLaws::path_is))]
fn charged(t: &Paths, x: FormedPath<'_>, length: u64) -> Path
    ensures { result ≡ path_of (C.effect (view t.now) (C.Charge length) (path_view x.entry.path.now)) }
{
    if t.is_server {
        path::spent(x, length)
    } else {
        *x.path
    }
}

// Bytes were sent: the credit falls by the length.
pub fn dec_anti_ampl_limit_at(t: Paths, id: u64, length: u64) -> PathParts
    ensures { Puts t result.path result.place result.answer (done_call t true (C.On id (C.Charge length))) }
{
    left_or_excused(&t, id, found(&t, id), |x| charged(&t, x, length))
}

// The source sequence that the path uses, or none: then it is 0.
pub fn set_scid_seq_at(t: Paths, id: u64, has_seq: bool, seq: u64) -> PathParts
    ensures { Puts t result.path result.place result.answer (done_call t (seq_formed has_seq seq) (C.On id (C.SetScid (given has_seq seq)))) }
{
    let x = found_if(has_seq | (seq == 0), &t, id);
    left(&t, id, x, |x| path::with_scid(x, has_seq.then_some(seq)))
}

// The destination sequence that the path uses, or none: then it is 0.
pub fn set_dcid_seq_at(t: Paths, id: u64, has_seq: bool, seq: u64) -> PathParts
    ensures { Puts t result.path result.place result.answer (done_call t (seq_formed has_seq seq) (C.On id (C.SetDcid (given has_seq seq)))) }
{
    let x = found_if(has_seq | (seq == 0), &t, id);
    left(&t, id, x, |x| path::with_dcid(x, has_seq.then_some(seq)))
}

// The active flag.
pub fn set_active_at(t: Paths, id: u64, on: bool) -> PathParts
    ensures { Puts t result.path result.place result.answer (done_call t true (C.On id (C.SetActive on))) }
{
    left(&t, id, found(&t, id), |x| path::with_active(x, on))
}

// The peer's address is verified.
pub fn mark_verified_at(t: Paths, id: u64) -> PathParts
    ensures { Puts t result.path result.place result.answer (done_call t true (C.On id C.Verify)) }
{
    left(&t, id, found(&t, id), |x| path::verified(x))
}

// The oldest challenge received is taken out: the answer is its data.
pub fn pop_recv_chal_at(t: Paths, id: u64) -> PoppedParts
    ensures { PutsPopped t result.path result.place result.answer (popped_call t true (C.On id C.Pop)) }
{
    match found(&t, id) {
        Ok(x) => PoppedParts {
            path: path::popped(x),
            place: id as usize,
            answer: Numbered::from(Ok(path::waiting_front(x))),
        },
        Err(e) => PoppedParts {
            path: t.items[0],
            place: 0,
            answer: Numbered::from(Err(e)),
        },
    }
}

// The path on which a challenge may be sent, and its deadline.
fn sending(t: &Paths, id: u64, now: Moment) -> Result<(FormedPath<'_>, Moment), Refusal>
    ensures { MatchResult result (λ a. Here t.now (moment_formed_of now.us) id a.0.path.now × (refusal now.us (path_view a.0.path.now) ≡ 0) × (a.1 ≡ record { us = R.loss_time now.us a.0.path.now.lost_chal })) (λ e. Unsent t.now (moment_formed_of now.us) id now.us e) }
{
    let x = found_if(values::moment_formed(now), t, id)?;
    let deadline = path::sending(x, now)?;
    Ok((x, deadline))
}

// A PATH_CHALLENGE frame was sent in a packet of that size.
pub fn on_path_chal_sent_at(t: Paths, id: u64, data: u64, size: u64, sent: Moment) -> PathParts
    ensures { Puts t result.path result.place result.answer (done_call t (moment_formed_of sent.us) (C.On id (C.Send «data» size sent.us))) }
{
    left(&t, id, sending(&t, id, sent), |(x, _)| {
        path::sent(x, data, size, sent)
    })
}

// A PATH_RESPONSE frame came: the answer is whether the path is now Validated, and a span for each challenge that it matched; by one that matches none, nothing
// changes [2].
pub fn on_path_resp_received_at(t: Paths, id: u64, data: u64, now: Moment) -> RespondedParts
    ensures { PutsResponded t result.path result.place result.answer (responded_call t (moment_formed_of now.us) (C.On id (C.Respond «data» now.us))) }
{
    match found_if(values::moment_formed(now), &t, id) {
        Ok(x) => {
            let a = path::answered(Ok(x), data, now, t.is_multipath);
            RespondedParts {
                path: a.path,
                place: id as usize,
                answer: RespondedAnswer::from(Ok((a.yes, a.spans))),
            }
        }
        Err(e) => RespondedParts {
            path: t.items[0],
            place: 0,
            answer: RespondedAnswer::from(excused(e, (false, challenges::no_spans()))),
        },
    }
}
