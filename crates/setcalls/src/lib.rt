// A record on the set is run: the call that it names. All of it is internal: scripts are run by `steps`.
#![tactic(auto)]

pub mod inner;
