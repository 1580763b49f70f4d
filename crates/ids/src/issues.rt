// add_scid and retire_scid: the source IDs that we issue, and that the peer retires (RFC 9000, 5.1.1 and 19.16).
ghost use Rattle.std.specs.Prelude.{◌≡◌, true, get_or, MatchResult};
ghost use Rattle.std.proofs.Math.Option.{none, some};
ghost use Rattle.lists.specs.Defs.{first_with, given};
ghost use Rattle.values.specs.Refusals.{number};
ghost use Rattle.values.specs.Token.{token_formed_of, token_view};
ghost use Rattle.tables.specs.Table as T;
ghost use Rattle.ids_rules.specs.With.{with_retire_prior_to, with_scids};
ghost use Rattle.ids_rules.specs.Steps as S;
ghost use Rattle.ids.specs.Reading.{freed_of, issued_at, issued_of, item_view, path_formed_of, view};
ghost use Rattle.ids.specs.Results.{option_of};
ghost use Rattle.ids.specs.Puts.{put_rpt};
ghost use Rattle.ids.specs.Acts.{Raises, Withholds, free_none, freed_in, issued_in};

use crate::answers::{FreedParts, IssuedParts};
use crate::{marks, starts};
use ids_state::{FormedIds, Ids};
use tables::{Item, Table};
use values::limits::{MAX_SEQUENCE, QUEUE_SLOTS};
use values::{ConnectionId, Counted, Numbered, Refusal, Token};

pub fn none_issued(s: &Ids, retire_prior_to: u64, refusal: Refusal) -> IssuedParts
    ensures { issued_in s.now result ≡ issued_at (number refusal) 0 (put_rpt retire_prior_to s.now) }
{
    IssuedParts {
        scids: s.scids,
        scids_to_advertise: s.scids_to_advertise,
        next_scid_seq: s.next_scid_seq,
        retire_prior_to,
        answer: Counted::from(Err(refusal)),
    }
}

// With own Retire Prior To as it was, or raised. 6 leaves the old one.
fn issue_step(f: FormedIds<'_>, retire_prior_to: u64, x: Item, advertise: bool) -> IssuedParts
    requires { (x.seq ≡ f.ids.now.next_scid_seq) × (token_formed_of x.token ≡ true) × (path_formed_of x.has_path x.path ≡ true) }
    ensures { issued_in f.entry.ids.now result ≡ issued_of (S.issue x.cid (token_view x.token) advertise (given x.has_path x.path) (view f.entry.ids.now) (with_retire_prior_to retire_prior_to (view f.entry.ids.now))) }
{
    let s = f.ids;
    // 10.3: an ID is given with its reset token.
    if !x.token.present {
        return none_issued(s, retire_prior_to, Refusal::InternalError);
    }
    if s.scid_capacity <= s.scids.count {
        return none_issued(s, retire_prior_to, Refusal::ConnectionIdLimitError);
    }
    if advertise & (QUEUE_SLOTS <= s.scids_to_advertise.count) {
        return none_issued(s, s.retire_prior_to, Refusal::NoSlot);
    }
    IssuedParts {
        scids: tables::append(s.scids, x),
        scids_to_advertise: marks::marked(s.scids_to_advertise, x.seq, advertise),
        next_scid_seq: x.seq + 1,
        retire_prior_to,
        answer: Counted::from(Ok(x.seq)),
    }
}

// Own Retire Prior To with one ID more: as it was, or past the lowest where the table is at the peer's limit. Or why none is issued.
fn asked(f: FormedIds<'_>, retire_if_needed: bool) -> Result<u64, Refusal>
    ensures { MatchResult result (λ r. Raises f.entry.ids.now retire_if_needed r) (λ e. Withholds f.entry.ids.now retire_if_needed (number e)) }
{
    let s = f.ids;
    // 5.1.1, 19.15: an endpoint with a zero-length source ID issues none.
    if s.zero_length_scid {
        return Err(Refusal::InternalError);
    }
    // 16: a larger sequence can't be sent.
    if MAX_SEQUENCE <= s.next_scid_seq {
        return Err(Refusal::Spent);
    }
    // 5.1.1: no more than the peer allows, unless Retire Prior To asks for the excess.
    let count = s.scids.count as u64;
    if count < s.scid_limit {
        return Ok(s.retire_prior_to);
    }
    if !retire_if_needed {
        return Err(Refusal::ConnectionIdLimitError);
    }
    match tables::lowest_from(s.scids.live(), s.retire_prior_to) {
        Some(low) => Ok(low + 1),
        None => Err(Refusal::InternalError),
    }
}

pub fn add_scid_step(
    f: FormedIds<'_>,
    cid: ConnectionId,
    token: Token,
    advertise: bool,
    path: Option<u64>,
    retire_if_needed: bool,
) -> IssuedParts
    requires { token_formed_of token ≡ true }
    ensures { issued_in f.entry.ids.now result ≡ issued_of (S.add_scid cid (token_view token) advertise (option_of path) retire_if_needed (view f.entry.ids.now)) }
{
    let s = f.ids;
    match asked(f, retire_if_needed) {
        Ok(retire_prior_to) => {
            let x = starts::item(s.next_scid_seq, cid, token, path);
            issue_step(f, retire_prior_to, x, advertise)
        }
        Err(refusal) => none_issued(s, s.retire_prior_to, refusal),
    }
}

pub fn none_freed(scids: Table, retire_prior_to: u64, refusal: Refusal) -> FreedParts
    ensures { result ≡ free_none (number refusal) scids retire_prior_to }
{
    FreedParts {
        scids,
        retire_prior_to,
        answer: Numbered::from(Err(refusal)),
    }
}

// The item at i is taken out before its ID is held against the packet's, as in the Rust.
fn take_step(f: FormedIds<'_>, seq: u64, i: usize, packet: ConnectionId) -> FreedParts
    requires { first_with (T.has_seq seq) (T.live f.ids.now.scids) ≡ some i }
    ensures { freed_in f.entry.ids.now result ≡ freed_of (S.taken (item_view (get_or (T.live f.entry.ids.now.scids) i T.zero_item)) packet (with_scids (S.without seq (view f.entry.ids.now).scids) (view f.entry.ids.now))) }
{
    let s = f.ids;
    let x = s.scids.items[i];
    let rest = tables::remove_at(s.scids, i);
    // 19.16: a frame doesn't retire the ID of its own packet.
    if x.cid == packet {
        return none_freed(rest, s.retire_prior_to, Refusal::ProtocolViolation);
    }
    match tables::lowest_from(rest.live(), s.retire_prior_to) {
        Some(low) => FreedParts {
            scids: rest,
            retire_prior_to: low,
            answer: Numbered::from(Ok(x.has_path.then_some(x.path))),
        },
        None => none_freed(rest, s.retire_prior_to, Refusal::InternalError),
    }
}

pub fn retire_scid_step(f: FormedIds<'_>, seq: u64, packet: ConnectionId) -> FreedParts
    ensures { freed_in f.entry.ids.now result ≡ freed_of (S.retire_scid seq packet (view f.entry.ids.now)) }
{
    let s = f.ids;
    // 19.16: a sequence that was never issued is an error.
    if s.next_scid_seq <= seq {
        return none_freed(s.scids, s.retire_prior_to, Refusal::ProtocolViolation);
    }
    match tables::seek_seq(s.scids.live(), seq) {
        None => FreedParts {
            scids: s.scids,
            retire_prior_to: s.retire_prior_to,
            answer: Numbered::from(Ok(None)),
        },
        Some(_) if s.scids.count <= 1 => {
            none_freed(s.scids, s.retire_prior_to, Refusal::InternalError)
        }
        Some(i) => take_step(f, seq, i, packet),
    }
}
