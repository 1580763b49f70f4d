// What the calls give beside the plain answers of `values`. An answer begins with the refusal's number, and on a refusal every other field is zero.
ghost use Rattle.std.specs.Prelude.{◌≡◌, MatchResult};
ghost use Rattle.values.specs.Refusals.{number};
ghost use Rattle.paths_rules.specs.Path.{zero_path};
ghost use Rattle.paths.specs.Reading.{found_at, path_answer_at};
ghost use Rattle.paths.specs.Results.{address_result, responded_result};

use challenges::Spans;
use paths_state::{FormedPath, Path, Paths};
use values::refusals::ACCEPTED;
use values::{Address, Counted, Done, Numbered, Refusal};

// A whole path.
#[repr(C)]
#[derive(Clone, Copy)]
pub struct PathAnswer {
    pub refusal: u8,
    pub path: Path,
}

// A whole path and its id.
#[repr(C)]
#[derive(Clone, Copy)]
pub struct FoundAnswer {
    pub refusal: u8,
    pub id: u64,
    pub path: Path,
}

#[repr(C)]
#[derive(Clone, Copy)]
pub struct AddressAnswer {
    pub refusal: u8,
    pub address: Address,
}

// Whether the path is now Validated, and a span for each challenge that the response matched. Where it matched none, nothing has changed.
#[repr(C)]
#[derive(Clone, Copy)]
pub struct RespondedAnswer {
    pub refusal: u8,
    pub yes: bool,
    pub spans: Spans,
}

impl From<Result<FormedPath<'_>, Refusal>> for PathAnswer {
    ghost from_gives = { λ r a. MatchResult r (λ x. a ≡ record { refusal = 0; path = x.path.now }) (λ e. a ≡ path_answer_at (number e) zero_path) };

    fn from(r: Result<FormedPath<'_>, Refusal>) -> PathAnswer {
        match r {
            Ok(x) => PathAnswer {
                refusal: ACCEPTED,
                path: *x.path,
            },
            Err(e) => PathAnswer {
                refusal: u8::from(e),
                path: paths_state::no_path(),
            },
        }
    }
}

impl From<Result<(u64, FormedPath<'_>), Refusal>> for FoundAnswer {
    ghost from_gives = { λ r a. MatchResult r (λ x. a ≡ record { refusal = 0; id = x.0; path = x.1.path.now }) (λ e. a ≡ found_at (number e) 0 zero_path) };

    fn from(r: Result<(u64, FormedPath<'_>), Refusal>) -> FoundAnswer {
        match r {
            Ok((id, x)) => FoundAnswer {
                refusal: ACCEPTED,
                id,
                path: *x.path,
            },
            Err(e) => FoundAnswer {
                refusal: u8::from(e),
                id: 0,
                path: paths_state::no_path(),
            },
        }
    }
}

impl From<Result<Address, Refusal>> for AddressAnswer {
    ghost from_gives = { λ r a. a ≡ address_result r };

    fn from(r: Result<Address, Refusal>) -> AddressAnswer {
        match r {
            Ok(address) => AddressAnswer {
                refusal: ACCEPTED,
                address,
            },
            Err(e) => AddressAnswer {
                refusal: u8::from(e),
                address: Address {
                    ip: [0; 16],
                    flow: 0,
                    scope: 0,
                    port: 0,
                    kind: 0,
                },
            },
        }
    }
}

impl From<Result<(bool, Spans), Refusal>> for RespondedAnswer {
    ghost from_gives = { λ r a. a ≡ responded_result r };

    fn from(r: Result<(bool, Spans), Refusal>) -> RespondedAnswer {
        match r {
            Ok((yes, spans)) => RespondedAnswer {
                refusal: ACCEPTED,
                yes,
                spans,
            },
            Err(e) => RespondedAnswer {
                refusal: u8::from(e),
                yes: false,
                spans: challenges::no_spans(),
            },
        }
    }
}

// What a call that changes the state gives: the state first, which saves a lent caller a copy.
#[repr(C)]
#[derive(Clone, Copy)]
pub struct DoneOut {
    pub paths: Paths,
    pub answer: Done,
}

// insert_path: the id.
#[repr(C)]
#[derive(Clone, Copy)]
pub struct InsertedOut {
    pub paths: Paths,
    pub answer: Counted,
}

// pop_recv_chal: the data of the challenge, or none.
#[repr(C)]
#[derive(Clone, Copy)]
pub struct PoppedOut {
    pub paths: Paths,
    pub answer: Numbered,
}

#[repr(C)]
#[derive(Clone, Copy)]
pub struct RespondedOut {
    pub paths: Paths,
    pub answer: RespondedAnswer,
}

// What a call on one path leaves: the path at the place, and all else as it was. Where nothing changes, it is the path that stands there.
#[repr(C)]
#[derive(Clone, Copy)]
pub struct PathParts {
    pub path: Path,
    pub place: usize,
    pub answer: Done,
}

#[repr(C)]
#[derive(Clone, Copy)]
pub struct PoppedParts {
    pub path: Path,
    pub place: usize,
    pub answer: Numbered,
}

#[repr(C)]
#[derive(Clone, Copy)]
pub struct RespondedParts {
    pub path: Path,
    pub place: usize,
    pub answer: RespondedAnswer,
}
