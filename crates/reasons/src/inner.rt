// The walk behind the reason: no part of the public face.
pub mod clash;
pub mod walk;
