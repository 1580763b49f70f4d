// The state of a connection's IDs, and the test that it is well formed (docs/RULES.md, "Well-formed IDs"). Every published call of `ids` makes the test
// first, so it is laid out to be cheap: one loop over a table makes every test of its items and never leaves early, and the places past the table's count
// are gathered into one item and tested once.
#![tactic(auto)]

mod rows;
mod state;
mod test;
mod tested;

pub use state::Ids;
pub use test::formed;
pub use tested::{FormedIds, checked};
