// The doors to the calls that write a store.
ghost use Rattle.std.specs.Prelude.{not, ◌≡◌};
ghost use Rattle.store.specs.Calls.{fresh_call};
ghost use Rattle.contexts.specs.MergeCall.{merge_call};
ghost use Rattle.interning.specs.SingletonCall.{singleton_call};
ghost use Rattle.answers.specs.Answers.{number_of};
ghost use Rattle.purse.specs.Doors.{OpensCounted, by_full_context};

use answers::{CountedAnswer, done_number, merged_answer, number_answer};
use words::{ContextId, ReturnState};

// Makes the lent words a fresh store.
#[unsafe(no_mangle)]
pub extern "C" fn purse_fresh(store: &mut [u32]) -> u32
    ensures { (result ≡ number_of (fresh_call store.old).0) × (store.new ≡ (fresh_call store.old).1) }
{
    done_number(store::fresh(store))
}

// The context of `state` over `parent`, and 1 where it was made.
#[unsafe(no_mangle)]
pub extern "C" fn purse_singleton(
    store: &mut [u32],
    scratch: &mut [u32],
    parent: u32,
    state: u64,
) -> CountedAnswer
    ensures { OpensCounted (singleton_call store.old scratch.old parent state) result store.new scratch.new }
{
    number_answer(interning::singleton(store, scratch, ContextId(parent), ReturnState(state)))
}

// The context of the merge of `left` and `right`: by mode 0 full-context, by any other number by wildcard;
// and how many merges were counted, how many contexts made.
#[unsafe(no_mangle)]
pub extern "C" fn purse_merge(
    store: &mut [u32],
    scratch: &mut [u32],
    left: u32,
    right: u32,
    mode: u32,
) -> CountedAnswer
    ensures { OpensCounted (merge_call store.old scratch.old left right (not (by_full_context mode))) result store.new scratch.new }
{
    merged_answer(contexts::merge(store, scratch, ContextId(left), ContextId(right), mode != 0))
}
