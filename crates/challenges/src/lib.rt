// The challenge lists of one path: arrays with a count. Each holds a list in its first places and zeros past them, so a contract here is an equation: the
// result is the one array that holds the list which the definition gives.
//
// Each is a struct of its own, since C sees it by its name and has no generic struct; a push is two lines, and stands with each. A host may lend any value of
// them, so that what holds of a well-formed one (`ReceivedWell`, `SentWell`) is asked for in clauses: a type with that invariant
// would be put round the struct and taken off again at each use.
#![tactic(auto)]

mod matches;
mod received;
mod sent;

pub use matches::{Matches, Spans, no_spans, sent_matches, sent_unmatched};
pub use received::{Received, no_received, received_front, received_pop, received_push};
pub use sent::{Challenge, Sent, no_challenge, no_sent, sent_front, sent_push, sent_rest};
