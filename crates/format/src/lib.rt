// The format of a script: bytes are read as records.
#![tactic(auto)]

pub mod inner;
mod payloads;
mod records;

pub use records::{Record, SetRecord, Step, decode};
