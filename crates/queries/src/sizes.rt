// How many entries a context has.
ghost use Rattle.std.specs.Prelude.{◌≡◌};
ghost use Rattle.arena.specs.Store.{node_at};
ghost use Rattle.arena.specs.Kinds.{size};
ghost use Rattle.layout.specs.Decode.{store_of};
ghost use Rattle.store.specs.Calls.{leaves};
ghost use Rattle.queries.specs.Answers.{counted};
ghost use Rattle.store.specs.Asks.{Known};
ghost use Rattle.queries.specs.Queries.{entry_count, query_call};

use layout::{Record, StoreWords};
use store::inner::ask::ask;
use words::{ContextId, Refusal};

// Kept beside the one of `entries`: queries stand on the store alone, not on what makes contexts.
// An array has as many as its length says, any other record one.
fn entry_count(store: &StoreWords, context: usize) -> u32
    requires { Known store.now context }
    ensures { result ≡ size (node_at (store_of store.now) context) }
{
    match layout::record_of(store, context) {
        Record::Array(_, n) => n,
        _ => 1,
    }
}

// How many entries has a context?
pub fn len(store: &[u32], scratch: &mut [u32], context: ContextId) -> Result<u32, Refusal>
    ensures { leaves (counted result) store.now scratch.new
        ≡ query_call entry_count store.now scratch.old context.0 }
{
    let store = ask(store, scratch, context)?;
    Ok(entry_count(store, context.0 as usize))
}
