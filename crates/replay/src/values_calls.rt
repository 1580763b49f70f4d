// The calls 08 to 0a: they have no state.
use crate::ids_text;
use crate::record::Record;
use crate::text::Page;
use values::ConnectionId;

// The ID made of the first n bytes of the area, or of all of it.
fn made(area: &[u8], n: u64) -> ConnectionId {
    values::cid_new(area.get(..n as usize).unwrap_or(area))
}

pub fn line(r: &Record, page: &mut Page<'_>) {
    page.head(r.call, 0);
    match r.call {
        0x08 => page.number(values::wire_code(r.n0)),
        0x0a => page.flag(values::token_matches(r.token(), r.other_token())),
        _ => ids_text::id(page, &made(&r.area, r.n0)),
    }
    page.end(0);
}
