// The tests that stand before every call.
ghost use Rattle.std.specs.Prelude.{MatchResult, ◌≡◌, true, false, ◌&&◌};
ghost use Rattle.values.specs.Cid.{id_formed};
ghost use Rattle.values.specs.Token.{token_formed_of};
ghost use Rattle.ids_state.specs.Formed.{well_formed};
ghost use Rattle.ids.specs.Reading.{path_formed_of};

use ids_state::{FormedIds, Ids};
use values::{ConnectionId, Refusal, Token};

// The state, if it and the arguments have their forms.
pub fn checked(s: &Ids, arguments: bool) -> Result<FormedIds<'_>, Refusal>
    ensures { MatchResult result (λ f. (f.ids.now ≡ s.now) × ((well_formed s.now && arguments) ≡ true)) (λ e. (e ≡ Refusal.Malformed) × ((well_formed s.now && arguments) ≡ false)) }
{
    let f = ids_state::checked(s)?;
    values::form(arguments)?;
    Ok(f)
}

// Of an ID that comes with its token and its path: an absent path is 0.
pub fn of_id(cid: ConnectionId, token: Token, has_path: bool, path: u64) -> bool
    ensures { result ≡ (id_formed cid && token_formed_of token && path_formed_of has_path path) }
{
    values::cid_formed(cid) & values::token_formed(token) & (has_path | (path == 0))
}
