// The words of the paths, every slot of the table and of both challenge lists.
use crate::digest::Digest;
use challenges::{Received, Sent, Spans};
use paths_state::{Path, Paths};
use values::Address;

fn address(h: &mut Digest, a: &Address) {
    h.bytes(&a.ip);
    h.word(u64::from(a.flow));
    h.word(u64::from(a.scope));
    h.word(u64::from(a.port));
    h.word(u64::from(a.kind));
}

fn received(h: &mut Digest, q: &Received) {
    for d in &q.items {
        h.word(*d);
    }
    h.word(q.count as u64);
}

fn sent(h: &mut Digest, s: &Sent) {
    for c in &s.items {
        h.word(c.data);
        h.word(c.size);
        h.word(c.sent.us);
        h.word(c.deadline.us);
    }
    h.word(s.count as u64);
}

fn path(h: &mut Digest, x: &Path) {
    address(h, &x.pair.local);
    address(h, &x.pair.remote);
    received(h, &x.recv_chals);
    sent(h, &x.sent_chals);
    h.word(x.max_datagram_size);
    h.word(x.scid_seq);
    h.word(x.dcid_seq);
    h.word(x.lost_chal);
    h.word(x.max_challenge_size);
    h.word(x.anti_ampl_limit);
    h.word(u64::from(x.state));
    h.flag(x.has_scid);
    h.flag(x.has_dcid);
    h.flag(x.active);
    h.flag(x.need_send_challenge);
    h.flag(x.verified_peer_address);
    h.flag(x.peer_verified_local_address);
    h.flag(x.need_send_ping);
    h.flag(x.listed);
}

pub fn of_path(x: &Path) -> u64 {
    let mut h = Digest::new();
    path(&mut h, x);
    h.value()
}

pub fn of_paths(t: &Paths) -> u64 {
    let mut h = Digest::new();
    for x in &t.items {
        path(&mut h, x);
    }
    h.word(t.count as u64);
    h.word(t.max_paths);
    h.word(t.anti_ampl_factor);
    h.flag(t.is_multipath);
    h.flag(t.is_server);
    h.value()
}

// All 16 spans, those past the count too.
pub fn of_spans(s: &Spans) -> u64 {
    let mut h = Digest::new();
    for x in &s.items {
        h.word(x.us);
    }
    h.value()
}
