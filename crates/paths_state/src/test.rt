// The test of the whole state, and what has passed it.
ghost use Rattle.std.specs.Prelude.{◌≡◌, ◌<◌, ◌≤◌, get_or, true, false, MatchResult};
ghost use Rattle.lists.specs.Defs.{all, pairwise};
ghost use Rattle.paths_state.specs.Formed.{apart, bounded, path_formed_of, well_formed, zero_path};

use crate::state::{Path, Paths};
use crate::{form, zeros};
use values::Refusal;
use values::limits::MAX_PATHS;

// A state that is well formed.
#[derive(Clone, Copy)]
pub struct FormedPaths<'a> {
    pub paths: &'a Paths,
    pub ghost well: { well_formed paths.now ≡ true },
}

// One of its paths.
#[derive(Clone, Copy)]
pub struct FormedPath<'a> {
    pub path: &'a Path,
    pub ghost well: { path_formed_of path.now ≡ true },
}

// From 1 to the limit, which is from 1 to 8.
fn within(t: &Paths) -> bool
    ensures { result ≡ bounded t.now.max_paths t.now.count }
{
    let count = t.count as u64;
    (1 <= t.max_paths) & (t.max_paths <= MAX_PATHS) & (1 <= count) & (count <= t.max_paths)
}

fn differs_from(x: &Path, others: &[Path]) -> bool
    ensures { result ≡ all (apart x.now) others.now }
{
    others.iter().all(|y| form::differ(x, y))
}

// Any two of them differ.
fn all_differ(paths: &[Path]) -> bool
    ensures { result ≡ pairwise apart paths.now }
{
    for (i, x) in paths.iter().enumerate() {
        if !differs_from(x, &paths[i + 1..]) {
            return false;
        }
    }
    true
}

pub fn formed(t: &Paths) -> bool
    ensures { result ≡ well_formed t.now }
{
    if !within(t) {
        return false;
    }
    let (paths, free) = t.items.split_at(t.count);
    paths.iter().all(form::path_formed) & all_differ(paths) & free.iter().all(zeros::zero_path)
}

pub fn checked(paths: &Paths) -> Result<FormedPaths<'_>, Refusal>
    ensures { MatchResult result (λ f. (f.paths.now ≡ paths.now) × (well_formed paths.now ≡ true)) (λ e. (e ≡ Refusal.Malformed) × (well_formed paths.now ≡ false)) }
{
    values::form(formed(paths))?;
    Ok(FormedPaths { paths })
}

impl<'a> FormedPaths<'a> {
    // The path with the id; InternalError where none has it.
    pub fn get(self, id: u64) -> Result<FormedPath<'a>, Refusal>
        ensures { MatchResult result (λ f. (f.path.now ≡ get_or self.entry.paths.now.items id zero_path) × (id < self.entry.paths.now.count)) (λ e. (e ≡ Refusal.InternalError) × (self.entry.paths.now.count ≤ id)) }
    {
        if self.paths.count as u64 <= id {
            return Err(Refusal::InternalError);
        }
        Ok(FormedPath {
            path: &self.paths.items[id as usize],
        })
    }
}
