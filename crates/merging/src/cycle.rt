// A merge and the merges beneath it. The sum of the two numbers falls at each inner merge; the stack is in use up to `top`.
ghost use Rattle.work.specs.Counted.{counted};
ghost use Rattle.merging.specs.Standing.{Apart, Ended, Mergeable, Swallows, state_of, walked};

use entries::{entry, entry_count, intern_with_rest};
use interning::Numbered;
use interning::inner::counting::after;
use layout::{Entry, ScratchWords, StoreWords};
use words::{ContextId, Refusal};

// Is the merge by wildcard, with a side that is the empty stack alone?
fn swallows(left: ContextId, right: ContextId, root_is_wildcard: bool) -> bool
    ensures { Swallows root_is_wildcard left.0 right.0 result }
{
    root_is_wildcard && (left.0 == 0 || right.0 == 0)
}

// The context of the merge of two contexts' sets, counted unless the numbers are equal or the result was kept;
// and how many contexts were made.
#[cycle(merge_merge_entries)]
pub fn merge(
    store: &mut StoreWords,
    scratch: &mut ScratchWords,
    left: ContextId,
    right: ContextId,
    root_is_wildcard: bool,
    top: usize,
) -> Result<Numbered, Refusal>
    requires { Mergeable store.old scratch.old left.0 right.0 top }
    ensures { Ended store.old scratch.old top
        (counted root_is_wildcard (state_of store.old scratch.old) left.0 right.0) result store.new scratch.new }
{
    if left.0 == right.0 {
        return Ok(Numbered::found(left));
    }
    let known = cache::cached(scratch, left, right, root_is_wildcard);
    if let Some(context) = known {
        return Ok(Numbered::found(context));
    }
    if !cache::count_merge(scratch) {
        return Err(Refusal::TooMuchWork);
    }
    if swallows(left, right, root_is_wildcard) {
        cache::remember(scratch, left, right, root_is_wildcard, ContextId(0));
        return Ok(Numbered::found(ContextId(0)));
    }
    let merged = merge_entries(store, scratch, left, right, root_is_wildcard, top)?;
    cache::remember(scratch, left, right, root_is_wildcard, merged.context);
    Ok(merged)
}

// The entries of both sides in rising order of state, interned; beneath a state on both sides stands the merge of what stood beneath.
#[cycle(merge_merge_entries)]
fn merge_entries(
    store: &mut StoreWords,
    scratch: &mut ScratchWords,
    left: ContextId,
    right: ContextId,
    root_is_wildcard: bool,
    top: usize,
) -> Result<Numbered, Refusal>
    requires { Apart store.old scratch.old left.0 right.0 top }
    ensures { Ended store.old scratch.old top
        (walked root_is_wildcard (state_of store.old scratch.old) left.0 right.0) result store.new scratch.new }
{
    let left_len = entry_count(store, left);
    let right_len = entry_count(store, right);
    let mut left_index = 0;
    let mut right_index = 0;
    let mut n = 0;
    let mut made = 0;
    // Kept: two walks at once, of which the one at the lower state takes a step; no iterator says that in fewer words.
    while left_index < left_len {
        if right_len <= right_index {
            let ended = intern_with_rest(store, scratch, left, left_index, top, n, right)?;
            return Ok(after(ended, made));
        }
        let left_entry = entry(store, left, left_index);
        let right_entry = entry(store, right, right_index);
        if left_entry.state.0 < right_entry.state.0 {
            index::put_entry(scratch, top + n, left_entry);
            left_index += 1;
            n += 1;
            continue;
        }
        if right_entry.state.0 < left_entry.state.0 {
            index::put_entry(scratch, top + n, right_entry);
            right_index += 1;
            n += 1;
            continue;
        }
        let beneath = merge(
            store,
            scratch,
            left_entry.parent,
            right_entry.parent,
            root_is_wildcard,
            top + n,
        )?;
        let over = Entry {
            parent: beneath.context,
            state: left_entry.state,
        };
        index::put_entry(scratch, top + n, over);
        left_index += 1;
        right_index += 1;
        n += 1;
        made += beneath.made;
    }
    let ended = intern_with_rest(store, scratch, right, right_index, top, n, left)?;
    Ok(after(ended, made))
}
