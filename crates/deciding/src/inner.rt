// What the calls on a set's subsets ask of it once it is known to be sound: no part of a public face.
pub mod equal;
pub mod least;
pub mod single;
pub mod verdict;
