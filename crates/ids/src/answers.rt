// What the calls give beside the plain answers of `values`. An answer begins with the refusal's number, and on a refusal every other field is zero.
ghost use Rattle.std.specs.Prelude.{◌≡◌};
ghost use Rattle.ids.specs.Results.{found_answer, frame_answer, item_answer, retired_answer};

use ids_state::Ids;
use tables::{Item, Queue, Table, Used};
use values::refusals::ACCEPTED;
use values::{ConnectionId, Counted, Done, Numbered, Refusal, ResetToken};

// An item, or none: then it is zero.
#[repr(C)]
#[derive(Clone, Copy)]
pub struct ItemAnswer {
    pub refusal: u8,
    pub present: bool,
    pub item: Item,
}

// A sequence with its optional path, or none: then all are zero.
#[repr(C)]
#[derive(Clone, Copy)]
pub struct FoundAnswer {
    pub refusal: u8,
    pub present: bool,
    pub has_path: bool,
    pub seq: u64,
    pub path: u64,
}

// The fields of a NEW_CONNECTION_ID frame (RFC 9000, 19.15).
#[derive(Clone, Copy)]
pub struct Frame {
    pub seq: u64,
    pub retire_prior_to: u64,
    pub cid: ConnectionId,
    pub token: ResetToken,
}

// The same, as C sees them.
#[repr(C)]
#[derive(Clone, Copy)]
pub struct FrameAnswer {
    pub refusal: u8,
    pub seq: u64,
    pub retire_prior_to: u64,
    pub cid: ConnectionId,
    pub token: ResetToken,
}

// The sequences that left the table while a path used them.
#[repr(C)]
#[derive(Clone, Copy)]
pub struct RetiredAnswer {
    pub refusal: u8,
    pub used: Used,
}

// What a call that changes the state gives.
#[repr(C)]
#[derive(Clone, Copy)]
pub struct DoneOut {
    pub ids: Ids,
    pub answer: Done,
}

#[repr(C)]
#[derive(Clone, Copy)]
pub struct IssuedOut {
    pub ids: Ids,
    pub answer: Counted,
}

#[repr(C)]
#[derive(Clone, Copy)]
pub struct FreedOut {
    pub ids: Ids,
    pub answer: Numbered,
}

#[repr(C)]
#[derive(Clone, Copy)]
pub struct RetiredOut {
    pub ids: Ids,
    pub answer: RetiredAnswer,
}

// What the forms of acts.rt give, and the steps of add_dcid: the fields that the call may change, and its answer.
#[derive(Clone, Copy)]
pub struct TableParts {
    pub table: Table,
    pub answer: Done,
}

#[derive(Clone, Copy)]
pub struct QueueParts {
    pub queue: Queue,
    pub answer: Done,
}

#[derive(Clone, Copy)]
pub struct InitialParts {
    pub dcids: Table,
    pub zero_length_dcid: bool,
    pub answer: Done,
}

#[derive(Clone, Copy)]
pub struct LimitParts {
    pub scid_limit: u64,
    pub scid_capacity: usize,
    pub answer: Done,
}

#[derive(Clone, Copy)]
pub struct IssuedParts {
    pub scids: Table,
    pub scids_to_advertise: Queue,
    pub next_scid_seq: u64,
    pub retire_prior_to: u64,
    pub answer: Counted,
}

#[derive(Clone, Copy)]
pub struct FreedParts {
    pub scids: Table,
    pub retire_prior_to: u64,
    pub answer: Numbered,
}

#[derive(Clone, Copy)]
pub struct RetiredParts {
    pub dcids: Table,
    pub dcids_to_retire: Queue,
    pub largest_peer_retire_prior_to: u64,
    pub answer: RetiredAnswer,
}

impl From<Result<Option<Item>, Refusal>> for ItemAnswer {
    ghost from_gives = { λ r a. a ≡ item_answer r };

    fn from(r: Result<Option<Item>, Refusal>) -> ItemAnswer {
        match r {
            Ok(Some(item)) => ItemAnswer {
                refusal: ACCEPTED,
                present: true,
                item,
            },
            Ok(None) => ItemAnswer {
                refusal: ACCEPTED,
                present: false,
                item: tables::blank(),
            },
            Err(e) => ItemAnswer {
                refusal: u8::from(e),
                present: false,
                item: tables::blank(),
            },
        }
    }
}

impl From<Result<Option<Item>, Refusal>> for FoundAnswer {
    ghost from_gives = { λ r a. a ≡ found_answer r };

    fn from(r: Result<Option<Item>, Refusal>) -> FoundAnswer {
        match r {
            Ok(Some(x)) => FoundAnswer {
                refusal: ACCEPTED,
                present: true,
                has_path: x.has_path,
                seq: x.seq,
                path: x.path,
            },
            Ok(None) => FoundAnswer {
                refusal: ACCEPTED,
                present: false,
                has_path: false,
                seq: 0,
                path: 0,
            },
            Err(e) => FoundAnswer {
                refusal: u8::from(e),
                present: false,
                has_path: false,
                seq: 0,
                path: 0,
            },
        }
    }
}

impl From<Result<Frame, Refusal>> for FrameAnswer {
    ghost from_gives = { λ r a. a ≡ frame_answer r };

    fn from(r: Result<Frame, Refusal>) -> FrameAnswer {
        match r {
            Ok(f) => FrameAnswer {
                refusal: ACCEPTED,
                seq: f.seq,
                retire_prior_to: f.retire_prior_to,
                cid: f.cid,
                token: f.token,
            },
            Err(e) => FrameAnswer {
                refusal: u8::from(e),
                seq: 0,
                retire_prior_to: 0,
                cid: ConnectionId {
                    bytes: [0; 20],
                    len: 0,
                },
                token: ResetToken { bytes: [0; 16] },
            },
        }
    }
}

impl From<Result<Used, Refusal>> for RetiredAnswer {
    ghost from_gives = { λ r a. a ≡ retired_answer r };

    fn from(r: Result<Used, Refusal>) -> RetiredAnswer {
        match r {
            Ok(used) => RetiredAnswer {
                refusal: ACCEPTED,
                used,
            },
            Err(e) => RetiredAnswer {
                refusal: u8::from(e),
                used: tables::no_pairs(),
            },
        }
    }
}
