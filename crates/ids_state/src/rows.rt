// Tests of one item, and of two.
ghost use Rattle.std.specs.Prelude.{◌≡◌};
ghost use Rattle.ids_state.specs.Formed.{apart, item_formed_of};

use tables::Item;

pub fn item_formed(x: &Item) -> bool
    ensures { result ≡ item_formed_of x.now }
{
    values::cid_formed(x.cid)
        & values::token_formed(x.token)
        & (x.has_path | (x.path == 0))
        & (x.token.present | (x.seq == 0))
}

pub fn differ(x: &Item, y: &Item) -> bool
    ensures { result ≡ apart x.now y.now }
{
    (x.seq != y.seq) & (x.cid != y.cid)
}
