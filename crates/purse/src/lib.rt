// The doors: each call as a C function over plain numbers and slices.
// Kept by the C interface: numbers for modes, and store, set and scratch beside one another.
#![tactic(auto)]

mod adding;
mod asking;
mod judging;
mod listing;
mod making;

pub use adding::{purse_add, purse_close, purse_fresh_set};
pub use asking::{
    purse_has_empty_path, purse_is_empty, purse_len, purse_parent, purse_return_state,
};
pub use judging::{
    purse_all_subsets_conflict, purse_all_subsets_equal, purse_conflicting_alt_subsets,
    purse_conflicting_alts, purse_figures, purse_has_sll_conflict_terminating_prediction,
    purse_single_viable_alt, purse_unique_alt, purse_why,
};
pub use listing::purse_unique_alt_of;
pub use making::{purse_fresh, purse_merge, purse_singleton};
