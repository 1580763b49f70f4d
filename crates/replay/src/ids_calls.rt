// The calls 20 to 39, and the writes e0 to e2.
use crate::record::Record;
use crate::text::Page;
use crate::{answers, ids_digest, ids_reads};
use ids_state::Ids;

// Each of these writes the line up to the digest, and gives the state after the call.
fn done(o: ids::DoneOut, call: u8, page: &mut Page<'_>) -> Ids {
    page.head(call, o.answer.refusal);
    o.ids
}

fn issued(o: ids::IssuedOut, call: u8, page: &mut Page<'_>) -> Ids {
    answers::counted(o.answer, call, page);
    o.ids
}

fn freed(o: ids::FreedOut, call: u8, page: &mut Page<'_>) -> Ids {
    answers::numbered(o.answer, call, page);
    o.ids
}

fn retired(o: ids::RetiredOut, call: u8, page: &mut Page<'_>) -> Ids {
    page.head(call, o.answer.refusal);
    page.number(o.answer.used.count as u64);
    page.number(ids_digest::of_used(&o.answer.used));
    o.ids
}

// The calls that begin or change the tables; any other only reads.
fn called(s: &mut Ids, r: &Record, page: &mut Page<'_>) {
    let call = r.call;
    let id = r.id();
    let token = r.token();
    *s = match call {
        0x20 => done(ids::fresh(r.n0, id, r.n1, token), call, page),
        0x21 => done(ids::set_initial_dcid(*s, id, token, r.b, r.n0), call, page),
        0x22 => done(ids::set_scid_limit(*s, r.n0), call, page),
        0x26 => done(ids::mark_scid_used(*s, r.n0, r.n1), call, page),
        0x27 => done(ids::mark_dcid_used(*s, r.n0, r.n1), call, page),
        0x2b => issued(
            ids::add_scid(*s, id, token, r.c, r.b, r.n0, r.d),
            call,
            page,
        ),
        0x2c => retired(
            ids::add_dcid(*s, id, r.n0, r.reset_token(), r.n1),
            call,
            page,
        ),
        0x2d => freed(ids::retire_scid(*s, r.n0, id), call, page),
        0x2e => done(ids::mark_scid_to_advertise(*s, r.n0, r.c), call, page),
        0x2f => done(ids::mark_dcid_to_retire(*s, r.n0, r.c), call, page),
        _ => return ids_reads::fields(*s, r, page),
    };
}

// A field of the state is written, and nothing is tested.
fn written(s: &mut Ids, r: &Record, page: &mut Page<'_>) {
    page.head(r.call, 0);
    match r.call {
        0xe0 => s.next_scid_seq = r.n0,
        0xe1 => s.retire_prior_to = r.n0,
        _ => s.largest_peer_retire_prior_to = r.n0,
    }
}

pub fn line(s: &mut Ids, r: &Record, page: &mut Page<'_>) {
    if 0xe0 <= r.call {
        written(s, r, page);
    } else {
        called(s, r, page);
    }
    page.end(ids_digest::of_ids(s));
}
