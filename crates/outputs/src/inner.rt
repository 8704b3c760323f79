// What the calls write once the first config of each subset is known: no part of a public face.
pub mod alts;
pub mod insert;
pub mod subsets;
