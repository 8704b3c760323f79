// What crates above need beside the public face: no part of it.
pub mod counting;
pub mod intern;
mod write;
