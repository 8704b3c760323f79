// The entries of a context, laid out as a line.
ghost use Rattle.std.specs.Prelude.{[], ◌++◌, ◌∷◌, ◌+◌, ◌≤◌, length};
ghost use Rattle.layout.specs.Store.{node_at};
ghost use Rattle.layout.specs.Decode.{store_of};
ghost use Rattle.groups.specs.Asks.{Known};
ghost use Rattle.lines.specs.Entries.{PoolAt, entry_bytes, pool_node};
ghost use Rattle.lines.specs.Laid.{Wrote};
ghost use Rattle.lines.specs.Lines.{entries_bytes, entries_line, spaced};

use crate::inner::digits::{LINE_BYTES, put_byte, put_decimal, put_spaced};
use layout::{Entry, Record, StoreWords};
use words::{COMPACT_EMPTY_RETURN_STATE, CompactState, ContextId};

// Lays one entry: state`>`parent or `$`, with a space before it.
fn put_entry(out: &mut [u8], at: usize, entry: Entry) -> usize
    requires { at + length (entry_bytes entry.state.0 entry.parent.0) ≤ length out.old }
    ensures { Wrote out.old at (entry_bytes entry.state.0 entry.parent.0) result out.new }
{
    if entry.state.0 == COMPACT_EMPTY_RETURN_STATE {
        let at = put_byte(out, at, b' ');
        return put_byte(out, at, b'$');
    }
    let at = put_spaced(out, at, entry.state.0);
    let at = put_byte(out, at, b'>');
    put_decimal(out, at, entry.parent.0)
}

// Lays n pool entries, from place `from` on.
fn put_entries(out: &mut [u8], at: usize, store: &StoreWords, from: usize, n: usize) -> usize
    requires { PoolAt store.now from n × (at + length (entries_bytes (pool_node store.now from n)) ≤ length out.old) }
    ensures { Wrote out.old at (entries_bytes (pool_node store.now from n)) result out.new }
{
    let mut next = at;
    for i in 0..n {
        next = put_entry(out, next, layout::pool_entry(store, from + i));
    }
    next
}

// Lays the line of a context with one entry.
fn lay_one(out: &mut [u8; LINE_BYTES], entry: Entry) -> usize
    ensures { Wrote out.old 0 (69 ∷ spaced 1 ++ entry_bytes entry.state.0 entry.parent.0 ++ 10 ∷ []) result out.new }
{
    let at = put_byte(out, 0, b'E');
    let at = put_spaced(out, at, 1);
    let at = put_entry(out, at, entry);
    put_byte(out, at, b'\n')
}

// Lays the line of a context with n pool entries.
fn lay_many(out: &mut [u8; LINE_BYTES], store: &StoreWords, from: usize, n: usize) -> usize
    requires { PoolAt store.now from n }
    ensures { Wrote out.old 0 (69 ∷ spaced n ++ entries_bytes (pool_node store.now from n) ++ 10 ∷ []) result out.new }
{
    let at = put_byte(out, 0, b'E');
    let at = put_spaced(out, at, n as u32);
    let at = put_entries(out, at, store, from, n);
    put_byte(out, at, b'\n')
}

// Lays the line of a known context of a sound store.
pub fn lay_entries(out: &mut [u8; LINE_BYTES], store: &StoreWords, context: usize) -> usize
    requires { Known store.now context }
    ensures { Wrote out.old 0 (entries_line (node_at (store_of store.now) context)) result out.new }
{
    match layout::record_of(store, context) {
        Record::Single(entry) => lay_one(out, entry),
        Record::Array(from, n) => lay_many(out, store, from as usize, n as usize),
        _ => lay_one(
            out,
            Entry {
                parent: ContextId(0),
                state: CompactState(COMPACT_EMPTY_RETURN_STATE),
            },
        ),
    }
}
