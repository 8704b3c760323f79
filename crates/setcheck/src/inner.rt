// What crates above need of a set's words: no part of the public face.
pub mod check;
pub mod flags;
pub mod keys;
pub mod open;
pub mod places;
pub mod read;
