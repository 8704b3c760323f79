// The words of a store: where each stands, read and written by name. All of it is internal.
#![tactic(auto)]

mod entry;
mod places;
mod reads;
mod records;
mod writes;

pub use entry::Entry;
pub use places::{
    MOST_CONTEXTS, MOST_ENTRIES, PARENTS, RECORDS, SCRATCH_WORDS, STATES, STORE_WORDS,
    ScratchWords, StoreWords,
};
pub use reads::{count_of, pool_entry, used_of};
pub use records::{Record, record_of};
pub use writes::{put_counts, put_pool, put_record};
