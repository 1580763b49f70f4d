// A state with the fact that its test was passed, so that what is given one need not make the test again.
ghost use Rattle.std.specs.Prelude.{◌≡◌, true, false, MatchResult};
ghost use Rattle.ids_state.specs.Formed.{well_formed};

use crate::state::Ids;
use crate::test;
use values::Refusal;

// A state that is well formed.
#[derive(Clone, Copy)]
pub struct FormedIds<'a> {
    pub ids: &'a Ids,
    ghost well: { well_formed ids.now ≡ true },
}

// The state, if it is well formed.
pub fn checked(ids: &Ids) -> Result<FormedIds<'_>, Refusal>
    ensures { MatchResult result (λ f. (f.ids.now ≡ ids.now) × (well_formed ids.now ≡ true)) (λ e. (e ≡ Refusal.Malformed) × (well_formed ids.now ≡ false)) }
{
    values::form(test::formed(ids))?;
    Ok(FormedIds { ids })
}
