// The record that asks why the verdict is what it is: its call, and its reply as a line of bytes. All of it is internal: scripts are run by `steps`.
#![tactic(auto)]

pub mod inner;
