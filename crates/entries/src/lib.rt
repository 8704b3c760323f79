// A context's entries, read one at a time, and interned from the entry stack. All of it is internal.
#![tactic(auto)]

mod reads;
mod rest;

pub use reads::{entry, entry_count};
pub use rest::intern_with_rest;
