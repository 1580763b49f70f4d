// The answer fields of the IDs: an ID, a token, an item.
use crate::text::Page;
use tables::Item;
use values::ConnectionId;

// A space, the ID's length, and its 20 bytes.
pub fn id(page: &mut Page<'_>, id: &ConnectionId) {
    page.byte(b' ');
    page.pair(id.len);
    page.pairs(&id.bytes);
}

// A space, and the token's 16 bytes.
pub fn token(page: &mut Page<'_>, bytes: &[u8; 16]) {
    page.byte(b' ');
    page.pairs(bytes);
}

pub fn item(page: &mut Page<'_>, x: &Item) {
    id(page, &x.cid);
    page.number(x.seq);
    page.flag(x.token.present);
    token(page, &x.token.bytes);
    page.flag(x.has_path);
    page.number(x.path);
}
