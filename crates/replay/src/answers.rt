// The plain answers of `values`: the line up to the digest.
use crate::text::Page;
use values::{Counted, Flagged, Numbered, Timed};

pub fn counted(a: Counted, call: u8, page: &mut Page<'_>) {
    page.head(call, a.refusal);
    page.number(a.number);
}

pub fn flagged(a: Flagged, call: u8, page: &mut Page<'_>) {
    page.head(call, a.refusal);
    page.flag(a.flag);
}

pub fn numbered(a: Numbered, call: u8, page: &mut Page<'_>) {
    page.head(call, a.refusal);
    page.flag(a.present);
    page.number(a.number);
}

pub fn timed(a: Timed, call: u8, page: &mut Page<'_>) {
    page.head(call, a.refusal);
    page.flag(a.deadline.set);
    page.number(a.deadline.at.us);
}
