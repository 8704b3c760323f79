// The end of a merge: the rest of one side after what is on the stack, and all of it interned.
ghost use Rattle.std.specs.Prelude.{length, ◌<◌};
ghost use Rattle.layout.specs.Decode.{store_of};
ghost use Rattle.entries.specs.Rest.{Finishing, Extends, whole};

use crate::reads::{entry, entry_count};
use interning::Numbered;
use interning::inner::intern::intern_entries;
use layout::{ScratchWords, StoreWords};
use words::{ContextId, Refusal};

// Interns the n entries on the stack from `top` on and those of a context from an index on. What comes of it may be
// that context, or another.
pub fn intern_with_rest(
    store: &mut StoreWords,
    scratch: &mut ScratchWords,
    context: ContextId,
    index: usize,
    top: usize,
    n: usize,
    other: ContextId,
) -> Result<Numbered, Refusal>
    requires { Finishing store.old scratch.old context.0 index top n × (other.0 < length (store_of store.old)) }
    ensures { Extends store.old scratch.old top (whole store.old scratch.old context.0 index top n) result
        store.new scratch.new }
{
    let count = entry_count(store, context);
    let mut pushed = n;
    for next in index..count {
        let taken = entry(store, context, next);
        index::put_entry(scratch, top + pushed, taken);
        pushed += 1;
    }
    intern_entries(store, scratch, top, pushed, context, other)
}
