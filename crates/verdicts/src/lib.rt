// The subsets of a config set, their alternatives, and the verdict. Each call is lent the set, its
// store and the scratch, checks them itself, and leaves the scratch zero.
#![tactic(auto)]

mod listing;
mod single;
mod subsets;
mod verdict;

pub use listing::{conflicting_alt_subsets, conflicting_alts};
pub use single::{single_viable_alt, unique_alt};
pub use subsets::{all_subsets_conflict, all_subsets_equal};
pub use verdict::has_sll_conflict_terminating_prediction;
