// The unique alternative over a lent list of config records, as the Rust has it; of any length.
#![tactic(auto)]

mod list;

pub use list::unique_alt;
