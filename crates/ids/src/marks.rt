// The marks: sequences to advertise and to retire, and the path that uses an item.
ghost use Rattle.std.specs.Prelude.{◌≡◌, false, ◌&&◌, leb};
ghost use Rattle.lists.specs.Defs.{first_with};
ghost use Rattle.values.specs.Limits.{queue_slots};
ghost use Rattle.tables.specs.Table.{QueueWell, TableWell, entries, has_seq, live, queue_of};
ghost use Rattle.ids_rules.specs.Steps as S;
ghost use Rattle.ids.specs.Acts.{marked_at, used_at};

use crate::answers::{QueueParts, TableParts};
use tables::{Queue, Table};
use values::limits::QUEUE_SLOTS;
use values::{Done, Refusal};

// On: the sequence goes to the end, where there is room. Off: every equal entry is taken out.
pub fn marked(q: Queue, seq: u64, on: bool) -> Queue
    requires { QueueWell q × ((on && leb queue_slots q.count) ≡ false) }
    ensures { result ≡ queue_of (S.marked seq on (entries q)) }
{
    if on {
        tables::queue_push(q, seq)
    } else {
        tables::queue_drop(q, seq)
    }
}

// The queue with the sequence marked; full, it stays.
pub fn queue_step(q: Queue, seq: u64, on: bool) -> QueueParts
    requires { QueueWell q }
    ensures { result ≡ marked_at seq on q (on && leb queue_slots q.count) }
{
    if on & (QUEUE_SLOTS <= q.count) {
        return QueueParts {
            queue: q,
            answer: Done::from(Err(Refusal::NoSlot)),
        };
    }
    QueueParts {
        queue: marked(q, seq, on),
        answer: Done::from(Ok(())),
    }
}

// The table with the item put on the path.
pub fn used_step(t: Table, seq: u64, path: u64) -> TableParts
    requires { TableWell t }
    ensures { result ≡ used_at path t (first_with (has_seq seq) (live t)) }
{
    match tables::seek_seq(t.live(), seq) {
        Some(i) => TableParts {
            table: tables::set_path(t, i, path),
            answer: Done::from(Ok(())),
        },
        None => TableParts {
            table: t,
            answer: Done::from(Err(Refusal::InternalError)),
        },
    }
}
