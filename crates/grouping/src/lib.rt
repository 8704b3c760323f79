// The first config of each subset, found through chains in the scratch: in time that grows with the count.
#![tactic(auto)]

pub mod inner;
