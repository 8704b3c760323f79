// Which contexts have the empty stack in their set.
ghost use Rattle.std.specs.Prelude.{◌≡◌, []};
ghost use Rattle.arena.specs.Forest.{mem};
ghost use Rattle.arena.specs.Store.{tree};
ghost use Rattle.layout.specs.Decode.{store_of};
ghost use Rattle.store.specs.Calls.{leaves};
ghost use Rattle.queries.specs.Answers.{decided};
ghost use Rattle.store.specs.Asks.{Known};
ghost use Rattle.queries.specs.Queries.{has_empty_path, query_call};

use layout::{Record, StoreWords};
use store::inner::ask::ask;
use words::{COMPACT_EMPTY_RETURN_STATE, ContextId, Refusal};

// Is the last entry a `$`? States rise, so no other can be.
fn ends_in_mark(store: &StoreWords, context: usize) -> bool
    requires { Known store.now context }
    ensures { result ≡ mem (tree (store_of store.now) context) [] }
{
    match layout::record_of(store, context) {
        Record::Root => true,
        Record::Array(from, n) => {
            layout::pool_entry(store, (from + n - 1) as usize).state.0 == COMPACT_EMPTY_RETURN_STATE
        }
        _ => false,
    }
}

// Is the empty stack one of a context's?
pub fn has_empty_path(
    store: &[u32],
    scratch: &mut [u32],
    context: ContextId,
) -> Result<bool, Refusal>
    ensures { leaves (decided result) store.now scratch.new
        ≡ query_call has_empty_path store.now scratch.old context.0 }
{
    let store = ask(store, scratch, context)?;
    Ok(ends_in_mark(store, context.0 as usize))
}
