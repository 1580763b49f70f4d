// The words of the IDs, every slot of both tables and both queues.
use crate::digest::Digest;
use ids_state::Ids;
use tables::{Item, Queue, Table, Used};

fn item(h: &mut Digest, x: &Item) {
    h.word(x.seq);
    h.word(x.path);
    h.bytes(&x.cid.bytes);
    h.word(u64::from(x.cid.len));
    h.bytes(&x.token.bytes);
    h.flag(x.token.present);
    h.flag(x.has_path);
}

fn table(h: &mut Digest, t: &Table) {
    for x in &t.items {
        item(h, x);
    }
    h.word(t.count as u64);
}

fn queue(h: &mut Digest, q: &Queue) {
    for n in &q.items {
        h.word(*n);
    }
    h.word(q.count as u64);
}

// 2 x limit - 1, as the Rust keeps it; 0 in the all-zero state.
fn capacity(limit: u64) -> u64 {
    if limit == 0 {
        return 0;
    }
    limit.wrapping_add(limit).wrapping_sub(1)
}

pub fn of_ids(s: &Ids) -> u64 {
    let mut h = Digest::new();
    table(&mut h, &s.scids);
    table(&mut h, &s.dcids);
    h.word(s.scid_capacity as u64);
    h.word(s.dcid_limit);
    h.word(s.scid_limit);
    h.flag(s.zero_length_scid);
    h.flag(s.zero_length_dcid);
    h.word(s.next_scid_seq);
    h.word(s.retire_prior_to);
    h.word(s.largest_peer_retire_prior_to);
    queue(&mut h, &s.scids_to_advertise);
    queue(&mut h, &s.dcids_to_retire);
    h.word(capacity(s.dcid_limit));
    h.value()
}

// All 31 pairs, those past the count too.
pub fn of_used(u: &Used) -> u64 {
    let mut h = Digest::new();
    for x in &u.pairs {
        h.word(x.seq);
        h.word(x.path);
    }
    h.value()
}
