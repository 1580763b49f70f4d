// The first path that passes a test, and the least deadline.
ghost use Rattle.std.specs.Prelude.{◌≡◌, ◌<◌, true, IfSome, MatchResult};
ghost use Rattle.lists.specs.Defs.{first_with, optional};
ghost use Rattle.values.specs.Address.{pair_formed_of};
ghost use Rattle.values.specs.Refusals.{number};
ghost use Rattle.values.specs.Results.{numbered_of};
ghost use Rattle.values.specs.Time.{moved_of};
ghost use Rattle.paths_state.specs.Formed.{live};
ghost use Rattle.paths_rules.specs.Calls as C;
ghost use Rattle.paths_rules.specs.Path as R;
ghost use Rattle.paths_rules.specs.Table as T;
ghost use Rattle.paths.specs.Reading.{found_at, found_call, numbered_call, view};
ghost use Rattle.paths.specs.TableLaws.{earlier_of};

use paths_state::{FormedPath, FormedPaths, Path, Paths};
use values::{FourTuple, Moment, Refusal};

// The paths.
fn live<'a>(t: FormedPaths<'a>) -> &'a [Path]
    ensures { result.now ≡ live t.entry.paths.now }
{
    &t.paths.items[..t.paths.count]
}

// With the active flag.
pub fn first_flagged(t: FormedPaths<'_>) -> Option<usize>
    ensures first { result ≡ optional (first_with R.flagged (view t.entry.paths.now).paths) }
    ensures within { IfSome result (λ i. i < t.entry.paths.now.count) }
{
    live(t).iter().position(|x| x.active)
}

// The path with the active flag, and its id: InternalError where none has it.
pub fn flagged(t: &Paths) -> Result<(u64, FormedPath<'_>), Refusal>
    ensures { MatchResult result (λ a. record { refusal = 0; id = a.0; path = a.1.path.now } ≡ found_call t.now true (C.Ask C.GetActive)) (λ e. found_at (number e) 0 R.zero_path ≡ found_call t.now true (C.Ask C.GetActive)) }
{
    let formed = paths_state::checked(t)?;
    let id = first_flagged(formed).ok_or(Refusal::InternalError)? as u64;
    Ok((id, formed.get(id)?))
}

// Listed with the pair.
pub fn first_listed(t: FormedPaths<'_>, pair: FourTuple) -> Option<usize>
    ensures first { result ≡ optional (first_with (R.listed_as pair) (view t.entry.paths.now).paths) }
    ensures within { IfSome result (λ i. i < t.entry.paths.now.count) }
{
    live(t).iter().position(|x| path::listed_as(x, pair))
}

// The id of the path that is listed with the pair.
#[tactic(auto, using(crate::specs::CallLaws::by_form))]
pub fn listed(t: &Paths, pair: FourTuple) -> Result<Option<u64>, Refusal>
    ensures { numbered_of result ≡ numbered_call t.now (pair_formed_of pair) (C.Ask (C.IdOf pair)) }
{
    values::form(values::pair_formed(pair))?;
    let formed = paths_state::checked(t)?;
    Ok(first_listed(formed, pair).map(|place| place as u64))
}

// With the active flag off and no destination sequence.
pub fn first_unused(t: FormedPaths<'_>) -> Option<usize>
    ensures first { result ≡ optional (first_with R.unused (view t.entry.paths.now).paths) }
    ensures within { IfSome result (λ i. i < t.entry.paths.now.count) }
{
    live(t).iter().position(|x| path::unused(x))
}

// The earlier of two moments, of which either may be missing.
fn earlier(a: Option<Moment>, b: Option<Moment>) -> Option<Moment>
    ensures { result ≡ earlier_of a b }
{
    match (a, b) {
        (Some(first), Some(second)) => Some(first.min(second)),
        _ => a.or(b),
    }
}

// The least front deadline.
pub fn first_due(t: FormedPaths<'_>) -> Option<Moment>
    ensures { result ≡ moved_of (T.timer (view t.entry.paths.now).paths) }
{
    let mut best = None;
    for x in live(t) {
        best = earlier(best, path::due(FormedPath { path: x }));
    }
    best
}
