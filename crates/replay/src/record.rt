// A record of 96 bytes, as docs/TRACES.md lays it out.
ghost use Rattle.std.specs.Prelude.{◌≤◌, ◌+◌, length};

use values::{Address, ConnectionId, FourTuple, ResetToken, Token};

pub const SIZE: usize = 96;

#[derive(Clone, Copy)]
pub struct Record {
    pub area: [u8; 54],
    pub n0: u64,
    pub n1: u64,
    pub n2: u64,
    pub n3: u64,
    pub call: u8,
    pub a: bool,
    pub b: bool,
    pub c: bool,
    pub d: bool,
}

// The N bytes from `from` on.
fn part<const N: usize>(s: &[u8], from: usize) -> [u8; N]
    requires { from + N ≤ length s.now }
{
    let mut bytes = [0; N];
    bytes.copy_from_slice(&s[from..from + N]);
    bytes
}

// The big-endian number from `at` on.
fn word(s: &[u8; SIZE], at: usize) -> u64
    requires { at ≤ 88 }
{
    u64::from_be_bytes(part(s, at))
}

// None where a flag is neither 0 nor 1, or one of the five spare bytes isn't zero.
pub fn read(s: &[u8; SIZE]) -> Option<Record> {
    let flags = s[1] | s[2] | s[3] | s[4];
    let spare = s[5] | s[6] | s[7] | s[94] | s[95];
    if (1 < flags) | (spare != 0) {
        return None;
    }
    Some(Record {
        area: part(s, 40),
        n0: word(s, 8),
        n1: word(s, 16),
        n2: word(s, 24),
        n3: word(s, 32),
        call: s[0],
        a: s[1] == 1,
        b: s[2] == 1,
        c: s[3] == 1,
        d: s[4] == 1,
    })
}

// The address of 27 bytes from `from` on: kind, IP, port, flow, scope.
fn address(area: &[u8; 54], from: usize) -> Address
    requires { from ≤ 27 }
{
    Address {
        ip: part(area, from + 1),
        flow: u32::from_be_bytes(part(area, from + 19)),
        scope: u32::from_be_bytes(part(area, from + 23)),
        port: u16::from_be_bytes(part(area, from + 17)),
        kind: area[from],
    }
}

impl Record {
    // The ID that the area begins with: its length, and 20 bytes.
    pub fn id(&self) -> ConnectionId {
        ConnectionId {
            bytes: part(&self.area, 1),
            len: self.area[0],
        }
    }

    // The 16 bytes after the ID, with the record's flag a.
    pub fn token(&self) -> Token {
        Token {
            bytes: part(&self.area, 21),
            present: self.a,
        }
    }

    // The same 16 bytes, as a frame carries them.
    pub fn reset_token(&self) -> ResetToken {
        ResetToken {
            bytes: part(&self.area, 21),
        }
    }

    // The 16 bytes after that token, with the record's flag b.
    pub fn other_token(&self) -> Token {
        Token {
            bytes: part(&self.area, 37),
            present: self.b,
        }
    }

    // The pair of addresses that the area holds.
    pub fn pair(&self) -> FourTuple {
        FourTuple {
            local: address(&self.area, 0),
            remote: address(&self.area, 27),
        }
    }
}
