// One pass over a store's words that judges them and builds their index.
ghost use Rattle.std.specs.Prelude.{◌≤◌};
ghost use Rattle.layout.specs.Layout.{most_contexts, most_entries};
ghost use Rattle.recordcheck.specs.Check.{AllJudged, Passed, RootJudged, Tells, Unused, StoreJudged};

use layout::{
    MOST_CONTEXTS, MOST_ENTRIES, PARENTS, RECORDS, STATES, STORE_WORDS, ScratchWords, StoreWords,
};
use recordcheck::inner::check::check_record;

// Judges the records after the first.
fn check_records(store: &StoreWords, scratch: &mut ScratchWords, count: usize) -> Option<usize>
    requires { Passed store.now scratch.old 1 0 × (1 ≤ count) × (count ≤ most_contexts) }
    ensures { AllJudged store.now count result scratch.new }
{
    let mut pool = 0;
    for context in 1..count {
        pool = check_record(store, scratch, context, pool)?;
    }
    Some(pool)
}

// Is record 0 the empty context? Then it is the first in the index.
fn check_root(store: &StoreWords, scratch: &mut ScratchWords) -> bool
    ensures { RootJudged store.now result scratch.new }
{
    if !words::all_zero(store, RECORDS, RECORDS + 3) {
        return false;
    }
    index::clear_heads(scratch);
    index::add_to_index(scratch, 0, words::empty_hash());
    true
}

// Are all words past the records and the pool entries in use 0?
fn unused_zero(store: &StoreWords, count: usize, used: usize) -> bool
    requires { (count ≤ most_contexts) × (used ≤ most_entries) }
    ensures { Tells (Unused store.now count used) result }
{
    if !words::all_zero(store, RECORDS + 3 * count, PARENTS) {
        return false;
    }
    if !words::all_zero(store, PARENTS + used, STATES) {
        return false;
    }
    words::all_zero(store, STATES + used, STORE_WORDS)
}

// Is the store sound? Then its index stands in the scratch.
pub fn check_store(store: &StoreWords, scratch: &mut ScratchWords) -> bool
    ensures { StoreJudged store.now result scratch.new }
{
    let count = layout::count_of(store) as usize;
    let used = layout::used_of(store) as usize;
    if count < 1 {
        return false;
    }
    if MOST_CONTEXTS < count {
        return false;
    }
    if MOST_ENTRIES < used {
        return false;
    }
    if !check_root(store, scratch) {
        return false;
    }
    let checked = check_records(store, scratch, count);
    let Some(pool) = checked else {
        return false;
    };
    if pool != used {
        return false;
    }
    unused_zero(store, count, used)
}
