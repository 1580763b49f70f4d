// The two ends of the story: the addresses of the laptop on cable and on wireless, and its connection IDs.
use ids_state::Ids;
use values::{Address, ConnectionId, FourTuple, ResetToken, Token};

// The data of the challenge: the 8 bytes of the frame as one number.
pub const CHALLENGE: u64 = 0x7669676e6f726173;

// Eight bytes that were never sent.
pub const GUESS: u64 = 0x7669676e6f726172;

fn address(last: u8, port: u16) -> Address {
    Address {
        ip: [192, 0, 2, last, 0, 0, 0, 0, 0, 0, 0, 0, 0, 0, 0, 0],
        flow: 0,
        scope: 0,
        port,
        kind: 4,
    }
}

// The server, and the laptop with this last byte of its address.
fn pair(last: u8) -> FourTuple {
    FourTuple {
        local: address(1, 443),
        remote: address(last, 50000),
    }
}

pub fn cable() -> FourTuple {
    pair(20)
}

pub fn wireless() -> FourTuple {
    pair(77)
}

// An ID of one byte.
pub fn id(n: u8) -> ConnectionId {
    ConnectionId {
        bytes: [n, 0, 0, 0, 0, 0, 0, 0, 0, 0, 0, 0, 0, 0, 0, 0, 0, 0, 0, 0],
        len: 1,
    }
}

pub fn reset() -> ResetToken {
    ResetToken { bytes: [7; 16] }
}

fn no_token() -> Token {
    Token {
        bytes: [0; 16],
        present: false,
    }
}

// The IDs of the connection: the peer's first, in use on path 0, and one more that the peer gave in time.
pub fn ids() -> Ids {
    let a = ids::fresh(4, id(200), 0, no_token());
    let b = ids::set_initial_dcid(a.ids, id(1), no_token(), true, 0);
    ids::add_dcid(b.ids, id(2), 1, reset(), 0).ids
}
