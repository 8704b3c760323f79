// What a script lays out, in a buffer that is known to have room: no part of the public face.
pub mod digits;
pub mod entries;
pub mod numbers;
