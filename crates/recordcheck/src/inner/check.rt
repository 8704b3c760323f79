// The check of one record after those before it, which adds it to the index.
ghost use Rattle.std.specs.Prelude.{◌≡◌, ◌+◌, ◌<◌, ◌≤◌};
ghost use Rattle.layout.specs.Layout.{first, parent, state, most_contexts, most_entries};
ghost use Rattle.layout.specs.Listing.Laws.{Entries};
ghost use Rattle.layout.specs.Records.{record_in};
ghost use Rattle.layout.specs.declared.records.Record.TheVariants.{Single, Array};
ghost use Rattle.recordcheck.specs.Check.{Above, EntryAt, FoundNew, Fresh, Judged, Passed, Tells};

use layout::{Entry, MOST_ENTRIES, Record, ScratchWords, StoreWords};
use words::COMPACT_EMPTY_RETURN_STATE;

// Is a pool entry the first of its list, which starts at `from`, or above the one before it?
fn rises(store: &StoreWords, from: usize, place: usize) -> bool
    requires { place < most_entries }
    ensures { Tells (Above (state store.now) from place) result }
{
    if place <= from {
        return true;
    }
    layout::pool_entry(store, place - 1).state.0 < layout::pool_entry(store, place).state.0
}

// Is a pool entry, in a list that starts at `from`, sound below a context?
fn entry_sound(store: &StoreWords, from: usize, place: usize, context: usize) -> bool
    requires { place < most_entries }
    ensures { Tells (EntryAt (state store.now) (parent store.now) from place context) result }
{
    let entry = layout::pool_entry(store, place);
    let parent = entry.parent.0;
    if context <= parent as usize {
        return false;
    }
    if !rises(store, from, place) {
        return false;
    }
    if entry.state.0 == COMPACT_EMPTY_RETURN_STATE {
        return parent == 0;
    }
    true
}

// Are n pool entries sound below a context?
fn entries_sound(store: &StoreWords, from: usize, n: usize, context: usize) -> bool
    requires { from + n ≤ most_entries }
    ensures { Tells (Entries (state store.now) (parent store.now) from n context) result }
{
    for i in 0..n {
        if !entry_sound(store, from, from + i, context) {
            return false;
        }
    }
    true
}

// Are the n entries on the stack those of no record so far? Then they are indexed as the next context.
fn check_new(store: &StoreWords, scratch: &mut ScratchWords, context: usize, n: usize) -> bool
    requires { Fresh store.now scratch.old context n }
    ensures { FoundNew store.now scratch.old context n result scratch.new }
{
    let hash = index::entries_hash(scratch, 0, n);
    let found = index::find_interned(store, scratch, context, 0, n, hash);
    if found.is_some() {
        return false;
    }
    index::add_to_index(scratch, context, hash);
    true
}

// Judges a record of kind 1. How many pool entries are in use after it, where it is sound?
fn check_single(
    store: &StoreWords,
    scratch: &mut ScratchWords,
    context: usize,
    pool: usize,
    entry: Entry,
) -> Option<usize>
    requires { Passed store.now scratch.old context pool × (context < most_contexts) × (record_in store.now context ≡ Single entry) }
    ensures { Judged store.now context result scratch.new }
{
    let parent = entry.parent.0;
    let state = entry.state.0;
    if context <= parent as usize {
        return None;
    }
    if state == COMPACT_EMPTY_RETURN_STATE {
        return None;
    }
    index::put_entry(scratch, 0, entry);
    if check_new(store, scratch, context, 1) {
        return Some(pool);
    }
    None
}

// Judges a record of kind 2, whose entries start where those before it end.
fn check_array(
    store: &StoreWords,
    scratch: &mut ScratchWords,
    context: usize,
    pool: usize,
    from: usize,
    n: usize,
) -> Option<usize>
    requires { Passed store.now scratch.old context pool × (context < most_contexts) × (record_in store.now context ≡ Array from n) }
    ensures { Judged store.now context result scratch.new }
{
    if from != pool {
        return None;
    }
    if n < 2 {
        return None;
    }
    if MOST_ENTRIES - pool < n {
        return None;
    }
    if !entries_sound(store, from, n, context) {
        return None;
    }
    index::load_entries(store, scratch, from, n, 0);
    if check_new(store, scratch, context, n) {
        return Some(pool + n);
    }
    None
}

// Judges a record that is not the first. How many pool entries are in use after it, where it is sound?
pub fn check_record(
    store: &StoreWords,
    scratch: &mut ScratchWords,
    context: usize,
    pool: usize,
) -> Option<usize>
    requires { Passed store.now scratch.old context pool × (context < most_contexts) }
    ensures { Judged store.now context result scratch.new }
{
    match layout::record_of(store, context) {
        Record::Single(entry) => check_single(store, scratch, context, pool, entry),
        Record::Array(from, n) => {
            check_array(store, scratch, context, pool, from as usize, n as usize)
        }
        _ => None,
    }
}
