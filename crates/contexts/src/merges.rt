// The merge of two contexts, full-context or by wildcard.
ghost use Rattle.std.specs.Prelude.{◌≡◌, ◌<◌};
ghost use Rattle.layout.specs.Layout.{count};
ghost use Rattle.interning.specs.Live.{Live};
ghost use Rattle.contexts.specs.MergeCall.{merge_call};
ghost use Rattle.contexts.specs.MergeCall.Laws.{merged_known};
ghost use Rattle.contexts.specs.Replies.{merged};

use layout::{ScratchWords, StoreWords};
use store::inner::admit::admit;
use store::inner::cut::cut_back;
use words::{ContextId, Refusal};

// How many merges a call counted, and how many contexts it made.
#[derive(Clone, Copy)]
pub struct Tally {
    pub merges: u32,
    pub made: u32,
}

// The context of a merge, and what was counted.
#[derive(Clone, Copy)]
pub struct Merged {
    pub context: ContextId,
    pub tally: Tally,
}

// Merges two known contexts of a live store. Without room, or with too much work, what was made is taken out again.
pub fn merge_known(
    store: &mut StoreWords,
    scratch: &mut ScratchWords,
    left: ContextId,
    right: ContextId,
    root_is_wildcard: bool,
) -> Result<Merged, Refusal>
    requires { Live store.old scratch.old × (left.0 < count store.old) × (right.0 < count store.old) }
    ensures { merged result store.new scratch.new ≡ merged_known store.old left.0 right.0 root_is_wildcard }
{
    let count = layout::count_of(store) as usize;
    let used = layout::used_of(store) as usize;
    cache::clear_cache(scratch);
    let outcome = merging::merge(store, scratch, left, right, root_is_wildcard, 0);
    match outcome {
        Ok(merged) => {
            let merges = cache::merges_counted(scratch);
            let made = merged.made;
            words::clear(scratch);
            Ok(Merged {
                context: merged.context,
                tally: Tally { merges, made },
            })
        }
        Err(refusal) => {
            cut_back(store, count, used);
            words::clear(scratch);
            Err(refusal)
        }
    }
}

// The context of the merge of `left` and `right`. Refused 2, 1, 4, and then 6 or 12, by which is reached first.
pub fn merge(
    store: &mut [u32],
    scratch: &mut [u32],
    left: ContextId,
    right: ContextId,
    root_is_wildcard: bool,
) -> Result<Merged, Refusal>
    ensures { merged result store.new scratch.new
        ≡ merge_call store.old scratch.old left.0 right.0 root_is_wildcard }
{
    let store = store.as_mut_array().ok_or(Refusal::WrongLength)?;
    let scratch = scratch.as_mut_array().ok_or(Refusal::WrongLength)?;
    admit(store, scratch, left)?;
    if layout::count_of(store) <= right.0 {
        words::clear(scratch);
        return Err(Refusal::UnknownContext);
    }
    merge_known(store, scratch, left, right, root_is_wildcard)
}
