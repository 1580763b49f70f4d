// Challenges are lost: their deadlines pass without a response.
ghost use Rattle.std.specs.Prelude.{◌≡◌, ◌≤◌};
ghost use Rattle.values.specs.Limits.{max_lost};
ghost use Rattle.challenges.specs.Challenges.{SentWell};
ghost use Rattle.paths_rules.specs.Path as R;
ghost use Rattle.path.specs.Reading.{path_of, path_view};
ghost use Rattle.path.specs.TimeoutLaws.{Known, expires, late, lose_front};

use crate::states::PathState;
use paths_state::{FormedPath, Path};
use values::Moment;
use values::limits::MAX_PROBING_TIMEOUTS;

fn probing(x: &Path) -> bool
    ensures { result ≡ R.probing (path_view x.now) }
{
    (x.state == u8::from(PathState::Validating)) | (x.state == u8::from(PathState::ValidatingMtu))
}

// Whether the front deadline is passed.
fn front_late(x: &Path, now: Moment) -> bool
    requires { SentWell x.now.sent_chals }
    ensures { result ≡ late now.us (path_view x.now).sent }
{
    challenges::sent_front(&x.sent_chals).is_some_and(|deadline| deadline <= now)
}

// The front one goes. Below 8 another challenge is asked for; otherwise the path fails, and no challenge stands.
fn front_lost(x: &Path) -> Path
    requires { Known x.now × (x.now.lost_chal ≤ max_lost) }
    ensures { result ≡ path_of (lose_front (path_view x.now)) }
{
    let lost = x.lost_chal + 1;
    let fails = MAX_PROBING_TIMEOUTS <= lost;
    Path {
        sent_chals: challenges::sent_rest(x.sent_chals, fails),
        lost_chal: lost,
        state: if fails {
            u8::from(PathState::Failed)
        } else {
            x.state
        },
        active: !fails & x.active,
        need_send_challenge: !fails | x.need_send_challenge,
        ..*x
    }
}

// Whether a timeout changes the path.
pub fn overdue(x: FormedPath, now: Moment) -> bool
    ensures { result ≡ expires now.us (path_view x.entry.path.now) }
{
    probing(x.path) && front_late(x.path, now)
}

pub fn timed_out(x: FormedPath, now: Moment) -> Path
    ensures { result ≡ path_of (R.timeout now.us (path_view x.entry.path.now)) }
{
    let mut u = *x.path;
    if !probing(&u) {
        return u;
    }
    while front_late(&u, now) {
        u = front_lost(&u);
    }
    u
}
