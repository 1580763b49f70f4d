// Arrays with a count: the table of items, the queue of sequences, and the list of used sequences. Each holds a list in its first places and zeros past
// them, so a contract here is an equation: the result is the one array that holds the list which the definition gives.
//
// Each is a struct of its own, since C sees it by its name and has no generic struct; a push is two lines, and stands with each. A host may lend any value of
// them, so that what holds of a well-formed one (`TableWell`, `QueueWell`) is asked for in clauses: a type with that invariant
// would be put round the struct and taken off again at each use.
#![tactic(auto)]

mod items;
mod lookup;
mod lower;
mod sequences;

pub use items::{Item, Table, append, blank, keep_from, no_items, remove_at, set_path};
pub use lookup::{Clash, count_free, first_clash, lowest_free, lowest_from, seek_cid, seek_seq};
pub use lower::{Used, no_pairs, queue_lower, used_lower};
pub use sequences::{Queue, no_entries, queue_drop, queue_has, queue_push};
