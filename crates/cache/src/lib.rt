// The merge cache in the scratch: the first 1,024 results of a call, in order of completion and
// never replaced, and how many merges were counted. All of it is internal: callers keep `CacheSound`.
#![tactic(auto)]

mod count;
mod keep;
mod keys;
mod lookup;
mod places;

pub use count::{count_merge, merges_counted};
pub use keep::{clear_cache, remember};
pub use lookup::cached;
