// What a higher Retire Prior To moves out of the table: the lower sequences, and the paths that used them.
ghost use Rattle.std.specs.Prelude.{◌≡◌, [], ◌∷◌, ◌++◌, ◌+◌, ◌<◌, ◌≤◌, length};
ghost use Rattle.lists.specs.Defs.{keep, picked};
ghost use Rattle.values.specs.Limits.{queue_slots, table_slots};
ghost use Rattle.tables.specs.Table.{QueueWell, below, entries, low_on_path, pair_of, queue_of, seq_of, used_of};

use crate::items::Item;
use crate::sequences;
use crate::sequences::Queue;
use values::UsedSeq;
use values::limits::TABLE_SLOTS;

#[repr(C)]
#[derive(Clone, Copy)]
pub struct Used {
    pub pairs: [UsedSeq; 31],
    pub count: usize,
}

pub fn no_pairs() -> Used
    ensures { result ≡ used_of [] }
{
    Used {
        pairs: [UsedSeq { seq: 0, path: 0 }; TABLE_SLOTS],
        count: 0,
    }
}

// The sequences below the bound go to the end of the queue, in table order: there is room.
#[tactic(auto, using(lists::specs::Search::keep_room_whole, std::proofs::lemmas::Grind::common_steps))]
pub fn queue_lower(items: &[Item], bound: u64, q: Queue) -> Queue
    requires { QueueWell q × (q.count + length (keep (below bound) items.now) ≤ queue_slots) }
    ensures { result ≡ queue_of (entries q ++ picked seq_of (below bound) items.now) }
{
    let mut out = q;
    for x in items {
        if x.seq < bound {
            out = sequences::queue_push(out, x.seq);
        }
    }
    out
}

// The sequence and the path of each item below the bound that has one, in table order.
#[tactic(auto, using(crate::specs::Laws::used_yes, crate::specs::Laws::used_no))]
pub fn used_lower(items: &[Item], bound: u64) -> Used
    requires { length items.now ≤ table_slots }
    ensures { result ≡ used_of (picked pair_of (low_on_path bound) items.now) }
{
    let mut out = no_pairs();
    for x in items {
        if (x.seq < bound) & x.has_path {
            out.pairs[out.count] = UsedSeq {
                seq: x.seq,
                path: x.path,
            };
            out.count += 1;
        }
    }
    out
}
