// What a comparison relies on, over places known to be within: no part of a public face.
pub mod agree;
