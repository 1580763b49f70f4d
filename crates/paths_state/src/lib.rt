// The state of the paths, and the test that it is well formed. docs/RULES.md, "Well-formed paths".
#![tactic(auto)]

mod form;
mod state;
mod test;
mod zeros;

pub use form::same_pair;
pub use state::{Path, Paths, no_path, no_paths};
pub use test::{FormedPath, FormedPaths, checked, formed};
pub use zeros::zero_address;
