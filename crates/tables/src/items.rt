// The table of connection IDs: 31 places, of which the first `count` hold items in the order in which they were added.
ghost use Rattle.std.specs.Prelude.{◌≡◌, [], ◌∷◌, ◌++◌, ◌<◌, ◌≤◌, get_or, set};
ghost use Rattle.lists.specs.Defs.{keep, without};
ghost use Rattle.values.specs.Limits.{table_slots};
ghost use Rattle.tables.specs.Table.{TableWell, at_least, is_zero, live, on_path, table_of, zero_item};

use values::limits::TABLE_SLOTS;
use values::{ConnectionId, Gather, Token};

// What is absent holds zeros: `has_path` and `path` are an Option as C sees it. The bytes come before the flag, so that the compiler can test several items' bytes at a time.
#[repr(C)]
#[derive(Clone, Copy)]
pub struct Item {
    pub seq: u64,
    pub path: u64,
    pub cid: ConnectionId,
    pub token: Token,
    pub has_path: bool,
}

#[repr(C)]
#[derive(Clone, Copy)]
pub struct Table {
    pub items: [Item; 31],
    pub count: usize,
}

// Both flags are gathered in one.
impl Gather for Item {
    ghost is_nothing = { is_zero };

    fn nothing() -> Item {
        blank()
    }

    #[tactic(auto, using(crate::specs::Laws::gathered_item))]
    fn gather(self, other: Item) -> Item {
        Item {
            seq: self.seq | other.seq,
            path: self.path | other.path,
            cid: ConnectionId {
                bytes: self.cid.bytes.gather(other.cid.bytes),
                len: self.cid.len | other.cid.len,
            },
            token: Token {
                bytes: self.token.bytes.gather(other.token.bytes),
                present: false,
            },
            has_path: self.has_path | self.token.present | other.has_path | other.token.present,
        }
    }

    fn is_none(self) -> bool {
        (self.seq == 0)
            & (self.path == 0)
            & (self.cid.len == 0)
            & self.cid.bytes.is_none()
            & self.token.bytes.is_none()
            & !self.token.present
            & !self.has_path
    }
}

impl Table {
    // The items that the table holds.
    pub fn live(&self) -> &[Item]
        requires { self.now.count ≤ table_slots }
        ensures { result.now ≡ live self.now }
    {
        &self.items[..self.count]
    }
}

pub fn blank() -> Item
    ensures { result ≡ zero_item }
{
    Item {
        seq: 0,
        path: 0,
        cid: ConnectionId {
            bytes: [0; 20],
            len: 0,
        },
        token: Token {
            bytes: [0; 16],
            present: false,
        },
        has_path: false,
    }
}

pub fn no_items() -> Table
    ensures { result ≡ table_of [] }
{
    Table {
        items: [blank(); TABLE_SLOTS],
        count: 0,
    }
}

// The item goes to the end: there is room.
#[tactic(auto, using(crate::specs::Laws::append_is))]
pub fn append(t: Table, item: Item) -> Table
    requires { TableWell t × (t.count < table_slots) }
    ensures { result ≡ table_of (live t ++ (item ∷ [])) }
{
    let mut u = t;
    u.items[t.count] = item;
    u.count = t.count + 1;
    u
}

// The items at or above the bound.
#[tactic(auto, using(lists::specs::Search::keep_few, std::proofs::lemmas::Grind::common_steps))]
pub fn keep_from(t: Table, bound: u64) -> Table
    requires { TableWell t }
    ensures { result ≡ table_of (keep (at_least bound) (live t)) }
{
    let mut out = no_items();
    for x in t.live() {
        if bound <= x.seq {
            out = append(out, *x);
        }
    }
    out
}

// The item at i is taken out: the later ones move down, and the last place is cleared.
pub fn remove_at(t: Table, i: usize) -> Table
    requires { TableWell t × (i < t.count) }
    ensures { result ≡ table_of (without i (live t)) }
{
    let mut u = t;
    values::take_out(&mut u.items, t.count, i, blank());
    u.count = t.count - 1;
    u
}

// The item at i is put on the path.
#[tactic(auto, using(crate::specs::Laws::path_is))]
pub fn set_path(t: Table, i: usize, path: u64) -> Table
    requires { TableWell t × (i < t.count) }
    ensures { result ≡ table_of (set (live t) i (on_path path (get_or (live t) i zero_item))) }
{
    let mut u = t;
    u.items[i] = Item {
        path,
        has_path: true,
        ..t.items[i]
    };
    u
}
