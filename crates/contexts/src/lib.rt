// The merge of two contexts as a call.
#![tactic(auto)]

pub mod inner;
mod merges;

pub use merges::{Merged, Tally, merge};
