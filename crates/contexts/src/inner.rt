// What crates above need of a store that is live already: no part of the public face.
pub use crate::merges::merge_known;
