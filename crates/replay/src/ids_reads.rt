// The calls on the IDs that only read: each writes the line up to the digest.
use crate::record::Record;
use crate::text::Page;
use crate::{answers, ids_text};
use ids_state::Ids;

fn whole(a: ids::ItemAnswer, call: u8, page: &mut Page<'_>) {
    page.head(call, a.refusal);
    ids_text::item(page, &a.item);
}

fn perhaps(a: ids::ItemAnswer, call: u8, page: &mut Page<'_>) {
    page.head(call, a.refusal);
    page.flag(a.present);
    ids_text::item(page, &a.item);
}

fn found(a: ids::FoundAnswer, call: u8, page: &mut Page<'_>) {
    page.head(call, a.refusal);
    page.flag(a.present);
    page.number(a.seq);
    page.flag(a.has_path);
    page.number(a.path);
}

fn framed(a: ids::FrameAnswer, call: u8, page: &mut Page<'_>) {
    page.head(call, a.refusal);
    page.number(a.seq);
    page.number(a.retire_prior_to);
    ids_text::id(page, &a.cid);
    ids_text::token(page, &a.token.bytes);
}

pub fn fields(s: Ids, r: &Record, page: &mut Page<'_>) {
    let call = r.call;
    match call {
        0x23 => whole(ids::get_scid(s, r.n0), call, page),
        0x24 => whole(ids::get_dcid(s, r.n0), call, page),
        0x25 => found(ids::find_scid(s, r.id()), call, page),
        0x28 => answers::counted(ids::unused_scids(s), call, page),
        0x29 => answers::counted(ids::unused_dcids(s), call, page),
        0x2a => answers::numbered(ids::lowest_unused_dcid_seq(s), call, page),
        0x30 => answers::numbered(ids::next_scid_to_advertise(s), call, page),
        0x31 => answers::numbered(ids::next_dcid_to_retire(s), call, page),
        0x32 => framed(ids::create_new_connection_id_frame(s, r.n0), call, page),
        0x33 => answers::flagged(ids::need_send_cid_control_frames(s), call, page),
        0x34 => answers::flagged(ids::zero_length_scid(s), call, page),
        0x35 => answers::flagged(ids::zero_length_dcid(s), call, page),
        0x36 => answers::counted(ids::scid_count(s), call, page),
        0x37 => perhaps(ids::scid_at(s, r.n0), call, page),
        0x38 => answers::counted(ids::dcid_count(s), call, page),
        _ => perhaps(ids::dcid_at(s, r.n0), call, page),
    }
}
