// What crates above need of the check: no part of a public face.
pub mod check;
