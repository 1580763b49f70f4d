// The test of the whole state: the bounds first, since the loops over the tables need them.
ghost use Rattle.std.specs.Prelude.{◌≡◌, ◌≤◌};
ghost use Rattle.values.specs.Limits.{table_slots};
ghost use Rattle.ids_state.specs.Formed.{bounded, destinations_formed, queue_formed_of, sources_formed, well_formed};

use crate::rows;
use crate::state::Ids;
use tables::{Queue, Table};
use values::limits::{
    MAX_CIDS_COUNT, MAX_DCID_LIMIT, MAX_SEQUENCE, MIN_SCID_LIMIT, QUEUE_SLOTS, TABLE_SLOTS,
};

#[tactic(auto, using(crate::proofs::Laws::take_first))]
fn sources(t: &Table, next: u64) -> bool
    requires { (1 ≤ t.now.count) × (t.now.count ≤ table_slots) }
    ensures { result ≡ sources_formed t.now next }
{
    let first = &t.items[0];
    let mut ok = rows::item_formed(first);
    let mut up = true;
    let mut last = first.seq;
    for x in &t.items[1..t.count] {
        ok &= rows::item_formed(x);
        up &= last < x.seq;
        last = x.seq;
    }
    ok & up & (last < next) & values::all_nothing(&t.items[t.count..])
}

fn destinations(t: &Table) -> bool
    requires { t.now.count ≤ table_slots }
    ensures { result ≡ destinations_formed t.now }
{
    let live = t.live();
    let mut ok = true;
    let mut far = true;
    for (i, x) in live.iter().enumerate() {
        ok &= rows::item_formed(x);
        for y in &live[i + 1..] {
            far &= rows::differ(x, y);
        }
    }
    ok & far & values::all_nothing(&t.items[t.count..])
}

// An empty queue is the common case: how many zeros it has is fixed, and the compiler unrolls the loop over them.
fn queue_formed(q: &Queue) -> bool
    ensures { result ≡ queue_formed_of q.now }
{
    if q.count == 0 {
        return values::all_nothing(&q.items);
    }
    q.items
        .get(q.count..)
        .is_none_or(|rest| values::all_nothing(rest))
}

// Nothing here can wrap, whatever the numbers are: the halves stand for 2 * scid_limit - 1 <= capacity and destinations < 2 * dcid_limit.
fn within(t: &Ids) -> bool
    ensures { result ≡ bounded t.now.dcid_limit t.now.scid_limit t.now.scid_capacity t.now.scids.count t.now.dcids.count t.now.next_scid_seq t.now.retire_prior_to t.now.scids_to_advertise.count t.now.dcids_to_retire.count }
{
    let half = (t.scid_capacity / 2 + t.scid_capacity % 2) as u64;
    let pairs = (t.dcids.count / 2) as u64;
    (1 <= t.dcid_limit)
        & (t.dcid_limit <= MAX_DCID_LIMIT)
        & (MIN_SCID_LIMIT <= t.scid_limit)
        & (t.scid_limit <= MAX_CIDS_COUNT)
        & (t.scid_capacity % 2 == 1)
        & (t.scid_limit <= half)
        & (t.scid_capacity <= TABLE_SLOTS)
        & (1 <= t.scids.count)
        & (t.scids.count <= t.scid_capacity)
        & (pairs < t.dcid_limit)
        & (1 <= t.next_scid_seq)
        & (t.next_scid_seq <= MAX_SEQUENCE)
        & (t.retire_prior_to <= t.next_scid_seq)
        & (t.scids_to_advertise.count <= QUEUE_SLOTS)
        & (t.dcids_to_retire.count <= QUEUE_SLOTS)
}

pub fn formed(t: &Ids) -> bool
    ensures { result ≡ well_formed t.now }
{
    within(t)
        && (sources(&t.scids, t.next_scid_seq)
            & destinations(&t.dcids)
            & queue_formed(&t.scids_to_advertise)
            & queue_formed(&t.dcids_to_retire))
}
