// Replies as lines of bytes, laid in a lent buffer.
#![tactic(auto)]

mod ends;
pub mod inner;

pub use ends::lay_end;
pub use inner::digits::LINE_BYTES;
