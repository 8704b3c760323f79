// What a script runs, over a buffer that is known to have room: no part of a public face.
pub mod calls;
pub mod stops;
