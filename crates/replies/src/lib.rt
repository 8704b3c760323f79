// The records on contexts: each call, and its reply as a line of bytes. All of it is internal: scripts are run by `steps`.
#![tactic(auto)]

pub mod inner;
