// The entries of a context's record, whatever its kind.
ghost use Rattle.std.specs.Prelude.{◌≡◌, ◌<◌};
ghost use Rattle.arena.specs.Store.{node_at};
ghost use Rattle.arena.specs.Kinds.{size};
ghost use Rattle.layout.specs.Decode.{store_of};
ghost use Rattle.interning.specs.Asks.{Known};
ghost use Rattle.entries.specs.Reading.{IsEntry};

use layout::{Entry, Record, StoreWords};
use words::{COMPACT_EMPTY_RETURN_STATE, CompactState, ContextId};

// How many entries a context has: an array as many as its length says, any other record one.
pub fn entry_count(store: &StoreWords, context: ContextId) -> usize
    requires { Known store.now context.0 }
    ensures { result ≡ size (node_at (store_of store.now) context.0) }
{
    match layout::record_of(store, context.0 as usize) {
        Record::Array(_, n) => n as usize,
        _ => 1,
    }
}

// The entry of a context at an index. That of context 0 is `$` over 0.
pub fn entry(store: &StoreWords, context: ContextId, index: usize) -> Entry
    requires { Known store.now context.0 × (index < size (node_at (store_of store.now) context.0)) }
    ensures { IsEntry (node_at (store_of store.now) context.0) index result }
{
    match layout::record_of(store, context.0 as usize) {
        Record::Single(entry) => entry,
        Record::Array(from, _) => layout::pool_entry(store, from as usize + index),
        _ => Entry {
            parent: ContextId(0),
            state: CompactState(COMPACT_EMPTY_RETURN_STATE),
        },
    }
}
