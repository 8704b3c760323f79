// What walks over a set's configs decide of its subsets.
#![tactic(auto)]

pub mod inner;
