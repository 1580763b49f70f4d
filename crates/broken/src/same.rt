// Whether two states are equal in every field, every slot of the tables and queues. No `==` is derived on what holds a token: tokens are compared by
// `token_matches` alone (RFC 9000, 10.3.1).
use ids_state::Ids;
use tables::{Item, Queue, Table};

fn item(x: &Item, y: &Item) -> bool {
    (x.seq == y.seq)
        & (x.path == y.path)
        & (x.cid == y.cid)
        & values::token_matches(x.token, y.token)
        & (x.has_path == y.has_path)
}

fn table(a: &Table, b: &Table) -> bool {
    (a.count == b.count) & a.items.iter().zip(&b.items).all(|(x, y)| item(x, y))
}

fn queue(a: &Queue, b: &Queue) -> bool {
    (a.count == b.count) & (a.items == b.items)
}

pub fn ids(s: &Ids, t: &Ids) -> bool {
    table(&s.scids, &t.scids)
        & table(&s.dcids, &t.dcids)
        & queue(&s.scids_to_advertise, &t.scids_to_advertise)
        & queue(&s.dcids_to_retire, &t.dcids_to_retire)
        & (s.scid_capacity == t.scid_capacity)
        & (s.dcid_limit == t.dcid_limit)
        & (s.scid_limit == t.scid_limit)
        & (s.zero_length_scid == t.zero_length_scid)
        & (s.zero_length_dcid == t.zero_length_dcid)
        & (s.next_scid_seq == t.next_scid_seq)
        & (s.retire_prior_to == t.retire_prior_to)
        & (s.largest_peer_retire_prior_to == t.largest_peer_retire_prior_to)
}
