// The calls 40 to 5d, and the writes e8 to eb.
use crate::record::Record;
use crate::text::Page;
use crate::{answers, paths_digest, paths_reads};
use paths_state::{Path, Paths};
use values::Moment;

// Each of these writes the line up to the digest, and gives the state after the call.
fn done(o: paths::DoneOut, call: u8, page: &mut Page<'_>) -> Paths {
    page.head(call, o.answer.refusal);
    o.paths
}

fn inserted(o: paths::InsertedOut, call: u8, page: &mut Page<'_>) -> Paths {
    answers::counted(o.answer, call, page);
    o.paths
}

fn popped(o: paths::PoppedOut, call: u8, page: &mut Page<'_>) -> Paths {
    answers::numbered(o.answer, call, page);
    o.paths
}

fn responded(o: paths::RespondedOut, call: u8, page: &mut Page<'_>) -> Paths {
    page.head(call, o.answer.refusal);
    page.flag(o.answer.yes);
    page.number(o.answer.spans.count as u64);
    page.number(paths_digest::of_spans(&o.answer.spans));
    o.paths
}

fn moment(n: u64) -> Moment {
    Moment { us: n }
}

// The table's own calls, and challenges, received and sent; any other call is below.
fn challenged(t: &mut Paths, r: &Record, page: &mut Page<'_>) {
    let call = r.call;
    *t = match call {
        0x40 => done(paths::fresh(r.pair(), r.n0, r.n1, r.n2, r.c), call, page),
        0x41 => inserted(paths::insert_path(*t, r.pair(), r.n0), call, page),
        0x4e => done(paths::initiate_path_chal(*t, r.n0), call, page),
        0x4f => popped(paths::pop_recv_chal(*t, r.n0), call, page),
        0x50 => done(paths::on_path_chal_received(*t, r.n0, r.n1), call, page),
        0x51 => {
            let o = paths::on_path_chal_sent(*t, r.n0, r.n1, r.n2, moment(r.n3));
            done(o, call, page)
        }
        0x52 => {
            let o = paths::on_path_resp_received(*t, r.n0, r.n1, moment(r.n2));
            responded(o, call, page)
        }
        0x53 => done(paths::on_path_chal_timeout(*t, moment(r.n0)), call, page),
        _ => return changed(t, r, page),
    };
}

// Credit, pings, multipath and the fields that a host sets; any other call only reads.
fn changed(t: &mut Paths, r: &Record, page: &mut Page<'_>) {
    let call = r.call;
    *t = match call {
        0x55 => done(paths::inc_anti_ampl_limit(*t, r.n0, r.n1), call, page),
        0x56 => done(paths::dec_anti_ampl_limit(*t, r.n0, r.n1), call, page),
        0x58 => done(paths::mark_ping(*t, r.a, r.pair()), call, page),
        0x59 => done(paths::enable_multipath(*t), call, page),
        0x5a => done(paths::set_scid_seq(*t, r.n0, r.b, r.n1), call, page),
        0x5b => done(paths::set_dcid_seq(*t, r.n0, r.b, r.n1), call, page),
        0x5c => done(paths::set_active(*t, r.n0, r.c), call, page),
        0x5d => done(paths::mark_verified(*t, r.n0), call, page),
        _ => return paths_reads::fields(*t, r, page),
    };
}

// One field of a path is written: the credit, the lost count, the largest size, or the state, where the number is that of a state: the Rust has five, and no
// field for another number.
fn write_field(x: &mut Path, call: u8, n: u64) {
    match call {
        0xe8 => x.anti_ampl_limit = n,
        0xe9 => x.lost_chal = n,
        0xea => x.max_challenge_size = n,
        _ => {
            if n < 5 {
                x.state = n as u8;
            }
        }
    }
}

// Nothing is tested, and a path that isn't there is left alone.
fn written(t: &mut Paths, r: &Record, page: &mut Page<'_>) {
    page.head(r.call, 0);
    if (r.n0 < 8) & (r.n0 < t.count as u64) {
        write_field(&mut t.items[r.n0 as usize], r.call, r.n1);
    }
}

pub fn line(t: &mut Paths, r: &Record, page: &mut Page<'_>) {
    if 0xe8 <= r.call {
        written(t, r, page);
    } else {
        challenged(t, r, page);
    }
    page.end(paths_digest::of_paths(t));
}
