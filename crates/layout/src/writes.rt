// Words of a store written: a record, a pool entry, the counts.
ghost use Rattle.std.specs.Prelude.{◌≡◌, ◌<◌, ◌≤◌};
ghost use Rattle.layout.specs.Encode.{put_counts, put_pool, put_record};
ghost use Rattle.layout.specs.Layout.{most_contexts, most_entries};

use crate::entry::Entry;
use crate::places::{PARENTS, RECORDS, STATES, StoreWords};

// Kept as words: each caller writes one kind, and a `Record` would only be taken apart again here.
// Writes the three words of a record.
pub fn put_record(store: &mut StoreWords, context: usize, kind: u32, first: u32, second: u32)
    requires { context < most_contexts }
    ensures { store.new ≡ put_record store.old context kind first second }
{
    store[RECORDS + 3 * context] = kind;
    store[RECORDS + 3 * context + 1] = first;
    store[RECORDS + 3 * context + 2] = second;
}

// Writes one pool entry.
pub fn put_pool(store: &mut StoreWords, place: usize, entry: Entry)
    requires { place < most_entries }
    ensures { store.new ≡ put_pool store.old place entry.parent.0 entry.state.0 }
{
    store[PARENTS + place] = entry.parent.0;
    store[STATES + place] = entry.state.0;
}

// Writes how many contexts there are and how many pool entries are in use.
pub fn put_counts(store: &mut StoreWords, count: usize, used: usize)
    requires { (count ≤ most_contexts) × (used ≤ most_entries) }
    ensures { store.new ≡ put_counts store.old count used }
{
    store[0] = count as u32;
    store[1] = used as u32;
}
