// The calls on the paths that only read: each writes the line up to the digest.
use crate::record::Record;
use crate::text::Page;
use crate::{answers, paths_digest};
use paths_state::Paths;
use values::Address;

// A space, and the address's 27 bytes: kind, IP, port, flow, scope.
fn put_address(page: &mut Page<'_>, a: &Address) {
    page.byte(b' ');
    page.pair(a.kind);
    page.pairs(&a.ip);
    page.pairs(&a.port.to_be_bytes());
    page.pairs(&a.flow.to_be_bytes());
    page.pairs(&a.scope.to_be_bytes());
}

fn place(a: paths::AddressAnswer, call: u8, page: &mut Page<'_>) {
    page.head(call, a.refusal);
    put_address(page, &a.address);
}

fn whole(a: paths::PathAnswer, call: u8, page: &mut Page<'_>) {
    page.head(call, a.refusal);
    page.number(paths_digest::of_path(&a.path));
}

fn found(a: paths::FoundAnswer, call: u8, page: &mut Page<'_>) {
    page.head(call, a.refusal);
    page.number(a.id);
    page.number(paths_digest::of_path(&a.path));
}

pub fn fields(t: Paths, r: &Record, page: &mut Page<'_>) {
    let call = r.call;
    match call {
        0x42 => answers::counted(paths::len(t), call, page),
        0x43 => whole(paths::get(t, r.n0), call, page),
        0x44 => answers::numbered(paths::get_path_id(t, r.pair()), call, page),
        0x45 => found(paths::get_active(t), call, page),
        0x46 => place(paths::local_addr(t, r.n0), call, page),
        0x47 => place(paths::remote_addr(t, r.n0), call, page),
        0x48 => answers::counted(paths::state(t, r.n0), call, page),
        0x49 => answers::flagged(paths::validated(t, r.n0), call, page),
        0x4a => answers::flagged(paths::active(t, r.n0), call, page),
        0x4b => answers::flagged(paths::path_chal_initiated(t, r.n0), call, page),
        0x4c => answers::flagged(paths::need_send_validation_frames(t, r.n0), call, page),
        0x4d => answers::flagged(paths::need_expand_padding_frames(t, r.n0), call, page),
        0x54 => answers::timed(paths::min_path_chal_timer(t), call, page),
        _ => answers::counted(paths::cmp_anti_ampl_limit(t, r.n0, r.n1), call, page),
    }
}
