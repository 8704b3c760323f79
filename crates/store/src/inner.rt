// What crates above need of a store's words once they are known to be sound: no part of the public face.
pub mod admit;
pub mod ask;
pub mod cut;
