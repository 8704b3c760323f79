// The calls on contexts, each with its reply laid out.
ghost use Rattle.std.specs.Prelude.{◌≡◌, []};
ghost use Rattle.layout.specs.Store.{node_at};
ghost use Rattle.layout.specs.Decode.{store_of};
ghost use Rattle.store.specs.Calls.{asked, done};
ghost use Rattle.interning.specs.SingletonCall.{singleton_call};
ghost use Rattle.contexts.specs.MergeCall.{merge_call};
ghost use Rattle.lines.specs.Lines.{entries_line};
ghost use Rattle.replies.specs.Replies.Laws.{Replied};
ghost use Rattle.replies.specs.Replies.{wiped};

use layout::SCRATCH_WORDS;
use lines::LINE_BYTES;
use lines::inner::entries::lay_entries;
use lines::inner::numbers::{lay_line, lay_refusal};
use store::inner::ask::ask;
use words::{ContextId, ReturnState};

// Leaves the scratch as what does not work in it does: 0, but one of a wrong length stays.
pub fn wipe(scratch: &mut [u32])
    ensures { scratch.new ≡ wiped scratch.old }
{
    if scratch.len() == SCRATCH_WORDS {
        words::clear(scratch);
    }
}

// Places a state over a parent.
pub fn singleton(
    store: &mut [u32],
    scratch: &mut [u32],
    parent: ContextId,
    state: ReturnState,
    out: &mut [u8; LINE_BYTES],
) -> usize
    ensures { Replied out.old [] (singleton_call store.old scratch.old parent.0 state.0)
        result out.new store.new scratch.new }
{
    match interning::singleton(store, scratch, parent, state) {
        Ok(numbered) => lay_line(out, b'C', &[numbered.context.0, numbered.made]),
        Err(refusal) => lay_refusal(out, refusal),
    }
}

// Merges two contexts.
pub fn merge(
    store: &mut [u32],
    scratch: &mut [u32],
    left: ContextId,
    right: ContextId,
    wildcard: bool,
    out: &mut [u8; LINE_BYTES],
) -> usize
    ensures { Replied out.old [] (merge_call store.old scratch.old left.0 right.0 wildcard)
        result out.new store.new scratch.new }
{
    match contexts::merge(store, scratch, left, right, wildcard) {
        Ok(merged) => lay_line(out, b'C', &[merged.context.0, merged.tally.made]),
        Err(refusal) => lay_refusal(out, refusal),
    }
}

// Lays out the entries of a context, or the refusal.
pub fn show(
    store: &[u32],
    scratch: &mut [u32],
    context: ContextId,
    out: &mut [u8; LINE_BYTES],
) -> usize
    ensures { Replied out.old (entries_line (node_at (store_of store.now) context.0))
        (asked store.now scratch.old context.0 done)
        result out.new store.now scratch.new }
{
    match ask(store, scratch, context) {
        Ok(store) => lay_entries(out, store, context.0 as usize),
        Err(refusal) => lay_refusal(out, refusal),
    }
}
