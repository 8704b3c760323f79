// All figures of a config set by one check of store and set: the number of subsets, the unique and
// the single viable alternative, and the verdict.
#![tactic(auto)]

mod answers;
mod call;

pub use answers::Figures;
pub use call::figures;
