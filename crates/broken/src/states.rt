// The states of ids_state's specs/Broken.antt, line by line, with its words.
use ids_state::Ids;
use tables::{Item, Queue, Table};
use values::{ConnectionId, Token};

fn id(n: u8) -> ConnectionId {
    let mut bytes = [0; 20];
    bytes[0] = n;
    bytes[1] = 7;
    ConnectionId { bytes, len: 8 }
}

fn key() -> Token {
    Token {
        bytes: [9; 16],
        present: true,
    }
}

fn zero_token() -> Token {
    Token {
        bytes: [0; 16],
        present: false,
    }
}

fn item(seq: u64, n: u8, token: Token) -> Item {
    Item {
        seq,
        path: 3,
        cid: id(n),
        token,
        has_path: true,
    }
}

// Sequence 0, without a token; another, with one.
fn first(n: u8) -> Item {
    item(0, n, zero_token())
}

fn later(seq: u64, n: u8) -> Item {
    item(seq, n, key())
}

// The table of these items, in its first places.
fn table_of(items: &[Item]) -> Table {
    let mut t = tables::no_items();
    for (place, x) in t.items.iter_mut().zip(items) {
        *place = *x;
    }
    t.count = items.len();
    t
}

fn two() -> Table {
    table_of(&[first(1), later(5, 2)])
}

// The same, counted as 1.
fn past() -> Table {
    Table { count: 1, ..two() }
}

fn none() -> Queue {
    Queue {
        items: [0; 128],
        count: 0,
    }
}

// Two entries, counted as n.
fn entries(count: usize) -> Queue {
    let mut q = none();
    q.items[0] = 4;
    q.items[1] = 4;
    q.count = count;
    q
}

fn overfull() -> Queue {
    Queue {
        items: [4; 128],
        count: 129,
    }
}

// Two items in each table, and empty queues.
fn plain() -> Ids {
    Ids {
        scids: two(),
        dcids: two(),
        scid_capacity: 15,
        dcid_limit: 8,
        scid_limit: 8,
        zero_length_scid: false,
        zero_length_dcid: false,
        next_scid_seq: 6,
        retire_prior_to: 0,
        largest_peer_retire_prior_to: 0,
        scids_to_advertise: none(),
        dcids_to_retire: none(),
    }
}

fn sources(items: &[Item]) -> Ids {
    Ids {
        scids: table_of(items),
        ..plain()
    }
}

fn destinations(items: &[Item]) -> Ids {
    Ids {
        dcids: table_of(items),
        ..plain()
    }
}

// One destination item, on no path.
fn alone(cid: ConnectionId, path: u64) -> Ids {
    destinations(&[Item {
        seq: 0,
        path,
        cid,
        token: zero_token(),
        has_path: false,
    }])
}

fn sevens(len: u8) -> ConnectionId {
    ConnectionId {
        bytes: [7; 20],
        len,
    }
}

fn absent_token() -> Token {
    Token {
        present: false,
        ..key()
    }
}

pub fn good() -> Ids {
    Ids {
        scids_to_advertise: entries(2),
        ..plain()
    }
}

pub fn broken(k: usize) -> Ids {
    match k {
        0 => Ids {
            dcid_limit: 0,
            ..destinations(&[])
        },
        1 => Ids {
            dcid_limit: 17,
            ..plain()
        },
        2 => Ids {
            scid_limit: 1,
            ..plain()
        },
        3 => Ids {
            scid_capacity: 16,
            ..plain()
        },
        4 => Ids {
            scid_capacity: 13,
            ..plain()
        },
        5 => Ids {
            scid_capacity: 33,
            ..plain()
        },
        6 => sources(&[]),
        7 => Ids {
            scid_limit: 2,
            scid_capacity: 3,
            ..sources(&[first(1), later(1, 1), later(2, 1), later(3, 1)])
        },
        8 => Ids {
            next_scid_seq: 5,
            ..sources(&[first(1), first(2)])
        },
        9 => Ids {
            next_scid_seq: 5,
            ..plain()
        },
        10 => Ids {
            dcid_limit: 1,
            ..plain()
        },
        11 => destinations(&[later(5, 1), later(5, 2)]),
        12 => destinations(&[later(0, 1), later(9, 2), later(5, 1)]),
        13 => sources(&[item(1, 1, zero_token())]),
        14 => destinations(&[item(1, 1, zero_token())]),
        15 => Ids {
            next_scid_seq: (1 << 62) + 1,
            ..plain()
        },
        16 => Ids {
            retire_prior_to: 7,
            ..plain()
        },
        17 => Ids {
            scids_to_advertise: overfull(),
            ..plain()
        },
        18 => Ids {
            dcids_to_retire: overfull(),
            ..plain()
        },
        19 => alone(sevens(21), 0),
        20 => alone(sevens(19), 0),
        21 => destinations(&[item(0, 1, absent_token())]),
        22 => alone(id(1), 3),
        23 => Ids {
            scids: past(),
            ..plain()
        },
        24 => Ids {
            dcids: past(),
            ..plain()
        },
        25 => Ids {
            scids_to_advertise: entries(1),
            ..plain()
        },
        26 => Ids {
            dcids_to_retire: entries(1),
            ..plain()
        },
        _ => good(),
    }
}
