// The credit of a path whose peer address is unverified.
#![tactic(auto, using(crate::specs::ReadingLaws::path_is, crate::specs::CreditLaws::sum_stops))]

ghost use Rattle.std.specs.Prelude.{◌≡◌};
ghost use Rattle.paths_rules.specs.Path.{gain, spend};
ghost use Rattle.path.specs.Reading.{path_of, path_view};

use paths_state::{FormedPath, Path};

// It stops at the largest.
pub fn gained(x: FormedPath, factor: u64, len: u64) -> Path
    ensures { result ≡ path_of (gain factor len (path_view x.entry.path.now)) }
{
    let mut u = *x.path;
    if !u.verified_peer_address {
        u.anti_ampl_limit = u.anti_ampl_limit.saturating_add(factor.saturating_mul(len));
    }
    u
}

// It stops at 0.
pub fn spent(x: FormedPath, len: u64) -> Path
    ensures { result ≡ path_of (spend len (path_view x.entry.path.now)) }
{
    let mut u = *x.path;
    if !u.verified_peer_address {
        u.anti_ampl_limit = u.anti_ampl_limit.saturating_sub(len);
    }
    u
}
