// The first state, an item, and a table with one ID.
ghost use Rattle.std.specs.Prelude.{Some, ◌≡◌, true, [], ◌∷◌, ◌≤◌};
ghost use Rattle.values.specs.Limits.{capacity_of, max_cids_count};
ghost use Rattle.values.specs.Token.{token_formed_of, token_view};
ghost use Rattle.ids_rules.specs.Steps as S;
ghost use Rattle.tables.specs.Table.{table_of};
ghost use Rattle.ids.specs.Reading.{ids_of};
ghost use Rattle.ids.specs.Results.{item_with};

use ids_state::Ids;
use tables::{Item, Table};
use values::limits::MIN_SCID_LIMIT;
use values::{ConnectionId, Token};

pub fn zero_state() -> Ids
    ensures { result ≡ ids_of S.zero_view }
{
    Ids {
        scids: tables::no_items(),
        dcids: tables::no_items(),
        scid_capacity: 0,
        dcid_limit: 0,
        scid_limit: 0,
        zero_length_scid: false,
        zero_length_dcid: false,
        next_scid_seq: 0,
        retire_prior_to: 0,
        largest_peer_retire_prior_to: 0,
        scids_to_advertise: tables::no_entries(),
        dcids_to_retire: tables::no_entries(),
    }
}

pub fn item(seq: u64, cid: ConnectionId, token: Token, path: Option<u64>) -> Item
    ensures { result ≡ item_with seq cid token path }
{
    Item {
        seq,
        path: path.unwrap_or(0),
        cid,
        token,
        has_path: path.is_some(),
    }
}

// A table with one item, of sequence 0.
pub fn only(cid: ConnectionId, token: Token, path: Option<u64>) -> Table
    ensures { result ≡ table_of (item_with 0 cid token path ∷ []) }
{
    tables::append(tables::no_items(), item(0, cid, token, path))
}

pub fn first_state(dcid_limit: u64, cid: ConnectionId, path: u64, token: Token) -> Ids
    requires { token_formed_of token ≡ true }
    ensures { result ≡ ids_of (S.fresh dcid_limit cid path (token_view token)) }
{
    let scids = only(cid, token, Some(path));
    let empty = tables::no_entries();
    Ids {
        scids,
        dcids: tables::no_items(),
        scid_capacity: capacity_for(MIN_SCID_LIMIT) as usize,
        dcid_limit,
        scid_limit: MIN_SCID_LIMIT,
        zero_length_scid: cid.len == 0,
        zero_length_dcid: false,
        next_scid_seq: 1,
        retire_prior_to: 0,
        largest_peer_retire_prior_to: 0,
        scids_to_advertise: empty,
        dcids_to_retire: empty,
    }
}

// How many items a table may hold for a limit.
pub fn capacity_for(limit: u64) -> u64
    requires { (1 ≤ limit) × (limit ≤ max_cids_count) }
    ensures { result ≡ capacity_of limit }
{
    2 * limit - 1
}
