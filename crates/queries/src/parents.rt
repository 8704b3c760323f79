// The parent of a context's entry at an index.
ghost use Rattle.std.specs.Prelude.{◌≡◌, Ok};
ghost use Rattle.layout.specs.Decode.{store_of};
ghost use Rattle.store.specs.Calls.{leaves};
ghost use Rattle.queries.specs.Answers.{parent_found};
ghost use Rattle.store.specs.Asks.{Known};
ghost use Rattle.queries.specs.Queries.{entry_parent, query_call};
ghost use Rattle.queries.specs.Listed.{parent_of};

use layout::{Record, StoreWords};
use store::inner::ask::ask;
use words::{ContextId, Refusal};

// The parent of an entry, 0 for a `$`; that of context 0 has none.
fn parent_at(store: &StoreWords, context: usize, index: usize) -> Option<ContextId>
    requires { Known store.now context }
    ensures { parent_found (Ok result) ≡ parent_of (store_of store.now) context index }
{
    match layout::record_of(store, context) {
        Record::Single(entry) => {
            if index == 0 {
                return Some(entry.parent);
            }
            None
        }
        Record::Array(from, n) => {
            if index < n as usize {
                return Some(layout::pool_entry(store, from as usize + index).parent);
            }
            None
        }
        _ => None,
    }
}

// What is the parent of a context's entry at an index?
pub fn parent(
    store: &[u32],
    scratch: &mut [u32],
    context: ContextId,
    index: u32,
) -> Result<Option<ContextId>, Refusal>
    ensures { leaves (parent_found result) store.now scratch.new
        ≡ query_call (entry_parent index) store.now scratch.old context.0 }
{
    let store = ask(store, scratch, context)?;
    Ok(parent_at(store, context.0 as usize, index as usize))
}
