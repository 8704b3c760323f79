// A record of a store, read whole: what its kind makes of its two other words.
ghost use Rattle.std.specs.Prelude.{◌≡◌, ◌<◌};
ghost use Rattle.layout.specs.Layout.{most_contexts};
ghost use Rattle.layout.specs.Records.{record_in};

use crate::entry::Entry;
use crate::places::{RECORDS, StoreWords};
use words::{CompactState, ContextId};

// The record of context 0; a singleton's one entry; where an array's entries start in the pool, and how many
// there are; or a record of no kind, which no sound store has.
#[derive(Clone, Copy)]
pub enum Record {
    Root,
    Single(Entry),
    Array(u32, u32),
    NoKind,
}

// The record of a context.
pub fn record_of(store: &StoreWords, context: usize) -> Record
    requires { context < most_contexts }
    ensures { result ≡ record_in store.now context }
{
    let at = RECORDS + 3 * context;
    let first = store[at + 1];
    let second = store[at + 2];
    match store[at] {
        0 => Record::Root,
        1 => Record::Single(Entry {
            parent: ContextId(first),
            state: CompactState(second),
        }),
        2 => Record::Array(first, second),
        _ => Record::NoKind,
    }
}
