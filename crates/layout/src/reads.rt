// The words of a store, one at a time, by name.
ghost use Rattle.std.specs.Prelude.{◌≡◌, ◌<◌};
ghost use Rattle.layout.specs.Layout.{count, parent, state, used, most_entries};
ghost use Rattle.layout.specs.Records.{entry_of};

use crate::entry::Entry;
use crate::places::{PARENTS, STATES, StoreWords};
use words::{CompactState, ContextId};

// How many contexts there are.
pub fn count_of(store: &StoreWords) -> u32
    ensures { result ≡ count store.now }
{
    store[0]
}

// How many pool entries are in use.
pub fn used_of(store: &StoreWords) -> u32
    ensures { result ≡ used store.now }
{
    store[1]
}

// A pool entry.
pub fn pool_entry(store: &StoreWords, place: usize) -> Entry
    requires { place < most_entries }
    ensures { result ≡ entry_of (parent store.now place) (state store.now place) }
{
    Entry {
        parent: ContextId(store[PARENTS + place]),
        state: CompactState(store[STATES + place]),
    }
}
