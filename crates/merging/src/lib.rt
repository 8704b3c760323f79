// The cycle of merges. All of it is internal.
#![tactic(auto)]

mod cycle;

pub use cycle::merge;
