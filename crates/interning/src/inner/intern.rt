// Interning of entries that stand on the stack: their number, found or made.
ghost use Rattle.std.specs.Prelude.{◌≤◌, ◌<◌, length};
ghost use Rattle.layout.specs.Decode.{store_of};
ghost use Rattle.interning.specs.Interned.{Interns, Missing};
ghost use Rattle.interning.specs.Live.{Pushed};
ghost use Rattle.index.specs.Records.{Proper};

use crate::inner::write::fill_pool;
use crate::numbered::Numbered;
use layout::{MOST_CONTEXTS, MOST_ENTRIES, ScratchWords, StoreWords, put_counts, put_record};
use words::{COMPACT_EMPTY_RETURN_STATE, ContextId, Refusal};

// Makes a singleton of the one entry on the stack, which no record is.
fn push_single(
    store: &mut StoreWords,
    scratch: &mut ScratchWords,
    at: usize,
    hash: u64,
) -> Result<Numbered, Refusal>
    requires { Missing store.old scratch.old at 1 hash }
    ensures { Interns store.old scratch.old at 1 result store.new scratch.new }
{
    let count = layout::count_of(store) as usize;
    let used = layout::used_of(store) as usize;
    if MOST_CONTEXTS <= count {
        return Err(Refusal::FullStore);
    }
    let entry = index::stack_entry(scratch, at);
    put_record(store, count, 1, entry.parent.0, entry.state.0);
    put_counts(store, count + 1, used);
    index::add_to_index(scratch, count, hash);
    Ok(Numbered {
        context: ContextId(count as u32),
        made: 1,
    })
}

// Makes an array of the n entries on the stack, which no record has.
fn push_array(
    store: &mut StoreWords,
    scratch: &mut ScratchWords,
    at: usize,
    n: usize,
    hash: u64,
) -> Result<Numbered, Refusal>
    requires { Missing store.old scratch.old at n hash × (2 ≤ n) }
    ensures { Interns store.old scratch.old at n result store.new scratch.new }
{
    let count = layout::count_of(store) as usize;
    let used = layout::used_of(store) as usize;
    if MOST_CONTEXTS <= count {
        return Err(Refusal::FullStore);
    }
    if MOST_ENTRIES - used < n {
        return Err(Refusal::FullStore);
    }
    fill_pool(store, scratch, used, at, n);
    put_record(store, count, 2, used as u32, n as u32);
    put_counts(store, count + 1, used + n);
    index::add_to_index(scratch, count, hash);
    Ok(Numbered {
        context: ContextId(count as u32),
        made: 1,
    })
}

// Makes a context of the n entries on the stack, which no record has.
fn push_new(
    store: &mut StoreWords,
    scratch: &mut ScratchWords,
    at: usize,
    n: usize,
    hash: u64,
) -> Result<Numbered, Refusal>
    requires { Missing store.old scratch.old at n hash }
    ensures { Interns store.old scratch.old at n result store.new scratch.new }
{
    if n == 1 {
        return push_single(store, scratch, at, hash);
    }
    push_array(store, scratch, at, n, hash)
}

// The number of the n entries on the stack, one at least and not `$` alone. A hash is worked out only where
// they are those of neither of two contexts.
fn intern_proper(
    store: &mut StoreWords,
    scratch: &mut ScratchWords,
    at: usize,
    n: usize,
    one: ContextId,
    other: ContextId,
) -> Result<Numbered, Refusal>
    requires { Pushed store.old scratch.old at n × Proper scratch.old at n × (one.0 < length (store_of store.old)) × (other.0 < length (store_of store.old)) }
    ensures { Interns store.old scratch.old at n result store.new scratch.new }
{
    let count = layout::count_of(store) as usize;
    if index::same_record(store, scratch, one.0 as usize, at, n, count) {
        return Ok(Numbered::found(one));
    }
    if index::same_record(store, scratch, other.0 as usize, at, n, count) {
        return Ok(Numbered::found(other));
    }
    let hash = index::entries_hash(scratch, at, n);
    let found = index::find_interned(store, scratch, count, at, n, hash);
    let Some(context) = found else {
        return push_new(store, scratch, at, n, hash);
    };
    Ok(Numbered::found(context))
}

// The number of the n entries on the stack: of none, or of `$` alone, it is 0. The two contexts are tried first:
// in a merge they are its sides.
pub fn intern_entries(
    store: &mut StoreWords,
    scratch: &mut ScratchWords,
    at: usize,
    n: usize,
    one: ContextId,
    other: ContextId,
) -> Result<Numbered, Refusal>
    requires { Pushed store.old scratch.old at n × (one.0 < length (store_of store.old)) × (other.0 < length (store_of store.old)) }
    ensures { Interns store.old scratch.old at n result store.new scratch.new }
{
    if n == 0 {
        return Ok(Numbered::found(ContextId(0)));
    }
    if index::stack_entry(scratch, at).state.0 == COMPACT_EMPTY_RETURN_STATE {
        return Ok(Numbered::found(ContextId(0)));
    }
    intern_proper(store, scratch, at, n, one, other)
}
