// The queue of sequences: 128 places, of which the first `count` hold sequences in the order in which they were queued.
ghost use Rattle.std.specs.Prelude.{◌≡◌, [], ◌∷◌, ◌++◌, ◌<◌, ◌≤◌};
ghost use Rattle.lists.specs.Defs.{has, keep};
ghost use Rattle.values.specs.Limits.{queue_slots};
ghost use Rattle.tables.specs.Table.{QueueWell, differs, entries, queue_of};

use values::limits::QUEUE_SLOTS;

#[repr(C)]
#[derive(Clone, Copy)]
pub struct Queue {
    pub items: [u64; 128],
    pub count: usize,
}

impl Queue {
    // The sequences that the queue holds.
    pub fn entries(&self) -> &[u64]
        requires { self.now.count ≤ queue_slots }
        ensures { result.now ≡ entries self.now }
    {
        &self.items[..self.count]
    }
}

pub fn no_entries() -> Queue
    ensures { result ≡ queue_of [] }
{
    Queue {
        items: [0; QUEUE_SLOTS],
        count: 0,
    }
}

// The sequence goes to the end: there is room.
#[tactic(auto, using(crate::specs::Laws::queue_push_is))]
pub fn queue_push(q: Queue, x: u64) -> Queue
    requires { QueueWell q × (q.count < queue_slots) }
    ensures { result ≡ queue_of (entries q ++ (x ∷ [])) }
{
    let mut r = q;
    r.items[q.count] = x;
    r.count = q.count + 1;
    r
}

// Every entry that equals x is taken out.
#[tactic(auto, using(lists::specs::Search::keep_few, std::proofs::lemmas::Grind::common_steps))]
pub fn queue_drop(q: Queue, x: u64) -> Queue
    requires { QueueWell q }
    ensures { result ≡ queue_of (keep (differs x) (entries q)) }
{
    let mut out = no_entries();
    for v in q.entries() {
        if *v != x {
            out = queue_push(out, *v);
        }
    }
    out
}

pub fn queue_has(q: &Queue, x: u64) -> bool
    requires { q.now.count ≤ queue_slots }
    ensures { result ≡ has x (entries q.now) }
{
    q.entries().contains(&x)
}
