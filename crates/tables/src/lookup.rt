// What the calls ask of the items of a table: which one stands where, how many are free, the lowest sequence, and what add_dcid asks before it adds one. The two
// searches, and the two for the lowest, differ in the test: a function that took the test would be the chain again.
ghost use Rattle.std.specs.Prelude.{◌≡◌, length};
ghost use Rattle.lists.specs.Defs.{first_with, keep, least, optional, picked};
ghost use Rattle.tables.specs.Table.{at_least, clash_of, first_judged, free, has_cid, has_seq, judged, seq_of};

use crate::items::Item;
use values::ConnectionId;

// The place of the first item with the sequence.
pub fn seek_seq(items: &[Item], seq: u64) -> Option<usize>
    ensures { result ≡ optional (first_with (has_seq seq) items.now) }
{
    items.iter().position(|x| seq == x.seq)
}

// The place of the first item with the ID.
pub fn seek_cid(items: &[Item], cid: ConnectionId) -> Option<usize>
    ensures { result ≡ optional (first_with (has_cid cid) items.now) }
{
    items.iter().position(|x| x.cid == cid)
}

// How many items no path uses.
#[tactic(auto, using(lists::specs::Search::length_keep_count))]
pub fn count_free(items: &[Item]) -> usize
    ensures { result ≡ length (keep free items.now) }
{
    items.iter().filter(|x| !x.has_path).count()
}

// The least sequence at or above the bound.
pub fn lowest_from(items: &[Item], bound: u64) -> Option<u64>
    ensures { result ≡ optional (least (picked seq_of (at_least bound) items.now)) }
{
    items.iter().filter(|x| bound <= x.seq).map(|x| x.seq).min()
}

// The least sequence of an item that no path uses.
pub fn lowest_free(items: &[Item]) -> Option<u64>
    ensures { result ≡ optional (least (picked seq_of free items.now)) }
{
    items.iter().filter(|x| !x.has_path).map(|x| x.seq).min()
}

// An item of the table has the new one's ID or sequence: it has both and the token too, or something differs.
#[derive(Clone, Copy, Debug, PartialEq, Eq)]
pub enum Clash {
    Repeats,
    Differs,
}

// How the item y of the table stands against the new one, x. An absent token is no frame's: it differs from an absent one too.
fn judge(x: &Item, y: &Item) -> Option<Clash>
    ensures { result ≡ clash_of (judged x.now y.now) }
{
    let cid = y.cid == x.cid;
    let seq = y.seq == x.seq;
    let token = y.token.present & values::token_matches(y.token, x.token);
    if cid & seq & token {
        Some(Clash::Repeats)
    } else if cid | seq {
        Some(Clash::Differs)
    } else {
        None
    }
}

// The first clash.
pub fn first_clash(items: &[Item], x: &Item) -> Option<Clash>
    ensures { result ≡ clash_of (first_judged x.now items.now) }
{
    items.iter().find_map(|y| judge(x, y))
}
