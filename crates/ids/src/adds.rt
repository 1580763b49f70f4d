// add_dcid, from its last step to its first: a NEW_CONNECTION_ID frame (RFC 9000, 19.15) brings a destination ID.
ghost use Rattle.std.specs.Prelude.{◌≡◌, [], true};
ghost use Rattle.values.specs.Cid.{id_formed};
ghost use Rattle.values.specs.Results.{refusal_of};
ghost use Rattle.ids_state.specs.Formed.{item_formed_of};
ghost use Rattle.ids_rules.specs.Steps as S;
ghost use Rattle.ids.specs.Reading.{item_view, retired_at, retired_of, view};
ghost use Rattle.ids.specs.Acts.{retire_none, retired_in};

use crate::answers::{RetiredAnswer, RetiredParts};
use crate::starts;
use ids_state::{FormedIds, Ids};
use tables::{Clash, Item, Queue, Table};
use values::limits::{QUEUE_SLOTS, RETIRE_FACTOR};
use values::{ConnectionId, Refusal, ResetToken, Token};

fn no_pairs(
    dcids: Table,
    dcids_to_retire: Queue,
    largest_peer_retire_prior_to: u64,
    r: Result<(), Refusal>,
) -> RetiredParts
    ensures { result ≡ retire_none (refusal_of r) dcids dcids_to_retire largest_peer_retire_prior_to }
{
    RetiredParts {
        dcids,
        dcids_to_retire,
        largest_peer_retire_prior_to,
        answer: RetiredAnswer::from(r.map(|_| tables::no_pairs())),
    }
}

// Nothing is changed.
pub fn unchanged(s: &Ids, r: Result<(), Refusal>) -> RetiredParts
    ensures { retired_in s.now result ≡ retired_at (refusal_of r) [] s.now }
{
    no_pairs(
        s.dcids,
        s.dcids_to_retire,
        s.largest_peer_retire_prior_to,
        r,
    )
}

// A sequence below the largest Retire Prior To, and not queued yet, is queued at once.
fn late_step(f: FormedIds<'_>, seq: u64) -> RetiredParts
    ensures { retired_in f.entry.ids.now result ≡ retired_of (S.queue_late seq (view f.entry.ids.now)) }
{
    let s = f.ids;
    if QUEUE_SLOTS <= s.dcids_to_retire.count {
        return unchanged(s, Err(Refusal::NoSlot));
    }
    let queued = tables::queue_push(s.dcids_to_retire, seq);
    let largest = s.largest_peer_retire_prior_to;
    // 5.1.2: more IDs in need of retirement than are tracked may be an error. Here above 4 x the limit.
    if RETIRE_FACTOR * s.dcid_limit < queued.count as u64 {
        return no_pairs(s.dcids, queued, largest, Err(Refusal::ProtocolViolation));
    }
    no_pairs(s.dcids, queued, largest, Ok(()))
}

fn append_step(f: FormedIds<'_>, x: Item) -> RetiredParts
    requires { item_formed_of x ≡ true }
    ensures { retired_in f.entry.ids.now result ≡ retired_of (S.append (item_view x) [] (view f.entry.ids.now)) }
{
    let s = f.ids;
    // 5.1.1: more active IDs than the limit is an error. Here the table holds 2 x limit - 1.
    if starts::capacity_for(s.dcid_limit) <= s.dcids.count as u64 {
        return unchanged(s, Err(Refusal::ConnectionIdLimitError));
    }
    no_pairs(
        tables::append(s.dcids, x),
        s.dcids_to_retire,
        s.largest_peer_retire_prior_to,
        Ok(()),
    )
}

// A Retire Prior To above the largest: 6 is decided before anything moves.
fn raise_step(f: FormedIds<'_>, x: Item, b: u64) -> RetiredParts
    requires { item_formed_of x ≡ true }
    ensures { retired_in f.entry.ids.now result ≡ retired_of (S.raise (item_view x) b (view f.entry.ids.now)) }
{
    let s = f.ids;
    // 19.15, 5.1.2: lower sequences are retired before the new ID is added.
    let kept = tables::keep_from(s.dcids, b);
    let lower = s.dcids.count - kept.count;
    if QUEUE_SLOTS < s.dcids_to_retire.count + lower {
        return unchanged(s, Err(Refusal::NoSlot));
    }
    let moved = tables::queue_lower(s.dcids.live(), b, s.dcids_to_retire);
    // 5.1.2, as above.
    if RETIRE_FACTOR * s.dcid_limit < moved.count as u64 {
        return no_pairs(kept, moved, b, Err(Refusal::ProtocolViolation));
    }
    // 5.1.1, after retiring.
    if starts::capacity_for(s.dcid_limit) <= kept.count as u64 {
        return no_pairs(kept, moved, b, Err(Refusal::ConnectionIdLimitError));
    }
    RetiredParts {
        dcids: tables::append(kept, x),
        dcids_to_retire: moved,
        largest_peer_retire_prior_to: b,
        answer: RetiredAnswer::from(Ok(tables::used_lower(s.dcids.live(), b))),
    }
}

fn new_step(f: FormedIds<'_>, x: Item, b: u64) -> RetiredParts
    requires { item_formed_of x ≡ true }
    ensures { retired_in f.entry.ids.now result ≡ retired_of (S.add_new (item_view x) b (view f.entry.ids.now)) }
{
    let s = f.ids;
    // 19.15: a Retire Prior To above the sequence is an error.
    if x.seq < b {
        return unchanged(s, Err(Refusal::ProtocolViolation));
    }
    // 19.15: a sequence below an earlier Retire Prior To is retired at once, unless it waits for that already: then nothing happens [10].
    if x.seq < s.largest_peer_retire_prior_to {
        if tables::queue_has(&s.dcids_to_retire, x.seq) {
            return unchanged(s, Ok(()));
        }
        return late_step(f, x.seq);
    }
    // 19.15: a Retire Prior To that doesn't raise the largest is ignored.
    if s.largest_peer_retire_prior_to < b {
        return raise_step(f, x, b);
    }
    append_step(f, x)
}

pub fn add_dcid_step(
    f: FormedIds<'_>,
    cid: ConnectionId,
    seq: u64,
    token: ResetToken,
    b: u64,
) -> RetiredParts
    requires { id_formed cid ≡ true }
    ensures { retired_in f.entry.ids.now result ≡ retired_of (S.add_dcid cid seq token.bytes b (view f.entry.ids.now)) }
{
    let s = f.ids;
    // 19.15: to an endpoint that sends with a zero-length ID the frame is an error.
    if s.zero_length_dcid {
        return unchanged(s, Err(Refusal::ProtocolViolation));
    }
    let bytes = token.bytes;
    let key = Token {
        bytes,
        present: true,
    };
    let x = starts::item(seq, cid, key, None);
    // 19.15: the same frame again is no error; an ID or a sequence that comes with others is.
    match tables::first_clash(s.dcids.live(), &x) {
        Some(Clash::Repeats) => unchanged(s, Ok(())),
        Some(Clash::Differs) => unchanged(s, Err(Refusal::ProtocolViolation)),
        None => new_step(f, x, b),
    }
}
