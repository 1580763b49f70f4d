// A response to a challenge that was sent. Where nobody asked it says nothing, and the path stays as it is [2].
ghost use Rattle.std.specs.Prelude.{◌≡◌, [], false, MatchResult};
ghost use Rattle.challenges.specs.Challenges.{spans_of};
ghost use Rattle.paths_rules.specs.Path as R;
ghost use Rattle.path.specs.Reading.{path_of, path_view};

use crate::states::PathState;
use crate::tests;
use challenges::{Matches, Spans};
use paths_state::{FormedPath, Path};
use values::Moment;
use values::limits::MIN_CLIENT_INITIAL_LEN;

// The path after a response, the spans of its matches, and whether it made the path Validated.
#[derive(Clone, Copy)]
pub struct Answer {
    pub path: Path,
    pub spans: Spans,
    pub yes: bool,
}

// The matches are looked for once.
fn response(x: FormedPath, data: u64, now: Moment, multi: bool) -> Answer
    ensures { result ≡ record { path = path_of (R.respond «data» multi (path_view x.entry.path.now)); spans = spans_of (R.matched «data» now.us (path_view x.entry.path.now)); yes = R.validates «data» (path_view x.entry.path.now) } }
{
    if tests::is_validated(x.path) {
        return Answer {
            path: *x.path,
            spans: challenges::no_spans(),
            yes: false,
        };
    }
    let mut path = *x.path;
    let Matches { spans, size } = challenges::sent_matches(path.sent_chals, data, now);
    // Nothing is written before a match is found.
    if spans.count == 0 {
        return Answer {
            path,
            spans,
            yes: false,
        };
    }
    path.verified_peer_address = true;
    path.lost_chal = 0;
    path.max_challenge_size = path.max_challenge_size.max(size);
    path.state = path.state.max(u8::from(PathState::ValidatingMtu));
    let yes = MIN_CLIENT_INITIAL_LEN <= path.max_challenge_size;
    if yes {
        path.sent_chals = challenges::no_sent();
        path.active = multi;
        path.state = path.state.max(u8::from(PathState::Validated));
    } else {
        path.sent_chals = challenges::sent_unmatched(path.sent_chals, data);
        path.need_send_challenge = true;
    }
    Answer { path, spans, yes }
}

// The same of a path that has its form; any other stays as it is.
pub fn answered(x: Result<FormedPath<'_>, &Path>, data: u64, now: Moment, multi: bool) -> Answer
    ensures { MatchResult x.entry (λ f. result ≡ record { path = path_of (R.respond «data» multi (path_view f.path.now)); spans = spans_of (R.matched «data» now.us (path_view f.path.now)); yes = R.validates «data» (path_view f.path.now) }) (λ p. result ≡ record { path = p.now; spans = spans_of []; yes = false }) }
{
    match x {
        Ok(formed) => response(formed, data, now, multi),
        Err(other) => Answer {
            path: *other,
            spans: challenges::no_spans(),
            yes: false,
        },
    }
}
