// What the calls on a set's subsets need of its words once they are known to be sound: no part of a public face.
pub mod clash;
pub mod lead;
pub mod marks;
pub mod places;
pub mod traits;
