// The words of the subsets and of the conflicting alternatives, written.
#![tactic(auto)]

pub mod inner;
