// Why the verdict on a set is what it is: a reason, and the alternatives of a clash in lent words.
#![tactic(auto)]

mod answers;
mod asked;
pub mod inner;

pub use answers::Reason;
pub use asked::why;
