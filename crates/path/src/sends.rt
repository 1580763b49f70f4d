// A challenge is sent.
ghost use Rattle.std.specs.Prelude.{◌≡◌, ◌*◌, ◌^◌, ◌≤◌, MatchResult};
ghost use Rattle.values.specs.Limits.{initial_chal_timeout, max_shift};
ghost use Rattle.values.specs.Refusals.{number};
ghost use Rattle.paths_rules.specs.Path.{loss_time, send};
ghost use Rattle.path.specs.Reading.{path_of, path_view};
ghost use Rattle.path.specs.SendLaws.{refusal};

use crate::states::PathState;
use challenges::Challenge;
use paths_state::{FormedPath, Path};
use values::limits::{INITIAL_CHAL_TIMEOUT, MAX_PATH_CHALS_SENT, MAX_SHIFT};
use values::{Moment, Refusal, Span};

// 25 ms, doubled for each challenge lost.
fn back_off(lost: u64) -> Span
    requires { lost ≤ max_shift }
    ensures { result ≡ record { us = initial_chal_timeout * 2 ^ lost } }
{
    Span {
        us: INITIAL_CHAL_TIMEOUT << lost,
    }
}

// When a challenge sent now counts as lost. FarDeadline: there is no such moment; NoSlot: sixteen challenges stand.
pub fn sending(x: FormedPath, now: Moment) -> Result<Moment, Refusal>
    ensures { MatchResult result (λ at. (refusal now.us (path_view x.entry.path.now) ≡ 0) × (at ≡ record { us = loss_time now.us x.entry.path.now.lost_chal })) (λ e. refusal now.us (path_view x.entry.path.now) ≡ number e) }
{
    let lost = x.path.lost_chal;
    if MAX_SHIFT < lost {
        return Err(Refusal::FarDeadline);
    }
    let deadline = values::moment_plus(now, back_off(lost)).ok_or(Refusal::FarDeadline)?;
    if MAX_PATH_CHALS_SENT <= x.path.sent_chals.count {
        return Err(Refusal::NoSlot);
    }
    Ok(deadline)
}

// It goes to the end. One that is refused has no deadline: the path stays.
#[tactic(auto, using(crate::specs::ChalLaws::sent_held, crate::specs::SendLaws::send_lost, crate::specs::SendLaws::send_room))]
pub fn sent(x: FormedPath, data: u64, size: u64, now: Moment) -> Path
    requires unrefused { refusal now.us (path_view x.path.now) ≡ 0 }
    ensures { result ≡ path_of (send «data» size now.us (path_view x.entry.path.now)) }
{
    let Some(deadline) = values::moment_plus(now, back_off(x.path.lost_chal)) else {
        return *x.path;
    };
    let challenge = Challenge {
        data,
        size,
        sent: now,
        deadline,
    };
    Path {
        sent_chals: challenges::sent_push(x.path.sent_chals, challenge),
        state: x.path.state.max(u8::from(PathState::Validating)),
        need_send_challenge: false,
        ..*x.path
    }
}
