// Changes of all paths, the insertions and the pings, in place: what is refused changes nothing.
ghost use Rattle.std.specs.Prelude.{◌≡◌, true, ◌<◌};
ghost use Rattle.lists.specs.Defs.{given};
ghost use Rattle.values.specs.Address.{pair_formed_of};
ghost use Rattle.values.specs.Limits.{max_paths_limit};
ghost use Rattle.values.specs.Results.{counted_of, done_of};
ghost use Rattle.values.specs.Time.{moment_formed_of};
ghost use Rattle.paths_state.specs.Formed.{well_formed};
ghost use Rattle.paths_rules.specs.Calls as C;
ghost use Rattle.paths_rules.specs.Path as R;
ghost use Rattle.paths_rules.specs.Table as T;
ghost use Rattle.paths_rules.specs.With.{with_ping};
ghost use Rattle.paths.specs.Reading.{done_call, inserted_call, optional_pair, paths_of, view};

use crate::{search, steps};
use paths_state::{FormedPath, Paths};
use values::{FourTuple, Moment, Refusal};

// A timeout on every path. Most paths are not overdue, and stay where they are.
fn time_out_all(t: &mut Paths, now: Moment)
    requires { well_formed t.old ≡ true }
    ensures { t.new ≡ paths_of (T.on_all (R.timeout now.us) (view t.old)) }
{
    for i in 0..t.count {
        let x = FormedPath { path: &t.items[i] };
        if path::overdue(x, now) {
            t.items[i] = path::timed_out(x, now);
        }
    }
}

pub fn time_out(t: &mut Paths, now: Moment) -> Result<(), Refusal>
    ensures { record { paths = t.new; answer = done_of result } ≡ done_call t.old (moment_formed_of now.us) (C.Timeout now.us) }
{
    values::form(values::moment_formed(now))?;
    paths_state::checked(t)?;
    time_out_all(t, now);
    Ok(())
}

// Below the limit: the new path goes to the end, and takes over its pair's listing.
fn append(t: &mut Paths, pair: FourTuple, max_datagram_size: u64)
    requires formed { well_formed t.old ≡ true }
    requires room { t.old.count < max_paths_limit }
    ensures { t.new ≡ paths_of (T.appended pair max_datagram_size (view t.old)) }
{
    for i in 0..t.count {
        t.items[i].listed = path::stays_listed(&t.items[i], pair);
    }
    t.items[t.count] = path::new_path(pair, max_datagram_size);
    t.count += 1;
}

// At the limit: the path at the place goes, with its pair's listing, and the new path stands there.
fn replace(t: &mut Paths, place: usize, pair: FourTuple, max_datagram_size: u64)
    requires formed { well_formed t.old ≡ true }
    requires below { place < t.old.count }
    ensures { t.new ≡ paths_of (T.replaced place pair max_datagram_size (view t.old)) }
{
    let gone = t.items[place].pair;
    for i in 0..t.count {
        let x = &t.items[i];
        t.items[i].listed = path::stays_listed(x, gone) & path::stays_listed(x, pair);
    }
    t.items[place] = path::new_path(pair, max_datagram_size);
}

// A new path: its id. At the limit an unused path is replaced, or there is none.
#[tactic(auto, using(crate::specs::CallLaws::by_form, crate::specs::Ways::insert_below, crate::specs::Ways::insert_evicts, crate::specs::Ways::insert_none))]
pub fn insert(t: &mut Paths, pair: FourTuple, max_datagram_size: u64) -> Result<u64, Refusal>
    ensures { record { paths = t.new; answer = counted_of result } ≡ inserted_call t.old (pair_formed_of pair) (C.Insert pair max_datagram_size) }
{
    values::form(values::pair_formed(pair))?;
    let formed = paths_state::checked(t)?;
    let count = t.count as u64;
    if count < t.max_paths {
        append(t, pair, max_datagram_size);
        return Ok(count);
    }
    let place = search::first_unused(formed).ok_or(Refusal::Done)?;
    replace(t, place, pair, max_datagram_size);
    Ok(place as u64)
}

fn ping_at(t: &mut Paths, place: usize)
    requires formed { well_formed t.old ≡ true }
    requires below { place < t.old.count }
    ensures { t.new ≡ paths_of (T.on_path place (with_ping true) (view t.old)) }
{
    t.items[place].need_send_ping = true;
}

// A ping on every path in use.
fn ping_all(t: &mut Paths)
    requires { well_formed t.old ≡ true }
    ensures { t.new ≡ paths_of (T.on_all T.ping_in_use_of (view t.old)) }
{
    for i in 0..t.count {
        if path::in_use(&t.items[i]) {
            t.items[i].need_send_ping = true;
        }
    }
}

// A ping is asked for. With multipath on: of the path with the pair, where one is listed with it, or of every path in use. With multipath off: of the active path.
#[tactic(auto, using(crate::specs::Ways::ping_none, crate::specs::Ways::ping_unlisted))]
pub fn ping(t: &mut Paths, has_pair: bool, pair: FourTuple) -> Result<(), Refusal>
    ensures { record { paths = t.new; answer = done_of result } ≡ done_call t.old (optional_pair has_pair pair) (C.Ping (given has_pair pair)) }
{
    values::form(steps::pair_or_none(has_pair, pair))?;
    let formed = paths_state::checked(t)?;
    if !t.is_multipath {
        let place = search::first_flagged(formed).ok_or(Refusal::InternalError)?;
        ping_at(t, place);
    } else if has_pair {
        if let Some(place) = search::first_listed(formed, pair) {
            ping_at(t, place);
        }
    } else {
        ping_all(t);
    }
    Ok(())
}
