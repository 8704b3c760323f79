// Lookup of entries on the stack among a store's records. A hash only picks the chain: every
// candidate is compared field by field.
ghost use Rattle.std.specs.Prelude.{◌≡◌, ◌+◌, ◌<◌, ◌≤◌};
ghost use Rattle.arena.specs.Store.{find, same};
ghost use Rattle.layout.specs.Decode.{node_in, store_in};
ghost use Rattle.layout.specs.Layout.{parent, state, most_contexts, most_entries};
ghost use Rattle.layout.specs.Listing.Laws.{Entries};
ghost use Rattle.layout.specs.Listing.{listing};
ghost use Rattle.index.specs.Found.{found_of};
ghost use Rattle.index.specs.Index.{Sought};
ghost use Rattle.index.specs.Records.{Proper, Records, Stacked, stack_node};

use crate::hash::bucket;
use crate::reads::{link_of, stack_entry};
use layout::{Record, ScratchWords, StoreWords};
use words::ContextId;

// Do n pool entries equal n entries on the stack?
// Kept by hand: the two are words of two buffers, not lists of entries that `==` could compare.
fn same_entries(
    store: &StoreWords,
    scratch: &ScratchWords,
    from: usize,
    at: usize,
    n: usize,
) -> bool
    requires pool { (from + n ≤ most_entries) × Entries (state store.now) (parent store.now) from n most_contexts }
    requires stacked { Stacked scratch.now at n most_contexts }
    ensures { result ≡ same (stack_node scratch.now at n) (listing (state store.now) (parent store.now) from n) }
{
    for i in 0..n {
        if layout::pool_entry(store, from + i) != stack_entry(scratch, at + i) {
            return false;
        }
    }
    true
}

// Is this record that of the n entries on the stack?
pub fn same_record(
    store: &StoreWords,
    scratch: &ScratchWords,
    candidate: usize,
    at: usize,
    n: usize,
    count: usize,
) -> bool
    requires records { Records store.now count × (candidate < count) }
    requires stacked { Stacked scratch.now at n count × Proper scratch.now at n }
    ensures { result ≡ same (stack_node scratch.now at n) (node_in store.now candidate) }
{
    match layout::record_of(store, candidate) {
        Record::Single(entry) => n == 1 && entry == stack_entry(scratch, at),
        Record::Array(from, length) => {
            length as usize == n && same_entries(store, scratch, from as usize, at, n)
        }
        _ => false,
    }
}

// The number of the n entries on the stack among the first `count` records, by the chain of their hash.
pub fn find_interned(
    store: &StoreWords,
    scratch: &ScratchWords,
    count: usize,
    at: usize,
    n: usize,
    hash: u64,
) -> Option<ContextId>
    requires { Sought store.now scratch.now count at n hash }
    ensures { found_of result ≡ find (stack_node scratch.now at n) (store_in store.now count) }
{
    let chain = bucket(hash);
    let mut next = scratch[chain];
    // Kept by no heap: the chain stands in the lent scratch, and the walk goes by its links.
    while next != 0 {
        let candidate = (next - 1) as usize;
        if same_record(store, scratch, candidate, at, n, count) {
            return Some(ContextId(next - 1));
        }
        next = link_of(scratch, candidate);
    }
    None
}
