// Which context is the set with only the empty stack.
ghost use Rattle.std.specs.Prelude.{◌≡◌};
ghost use Rattle.store.specs.Calls.{leaves};
ghost use Rattle.queries.specs.Answers.{decided};
ghost use Rattle.queries.specs.Queries.{is_empty, query_call};

use store::inner::ask::ask;
use words::{ContextId, Refusal};

// Is a context exactly the set of the empty stack?
pub fn is_empty(store: &[u32], scratch: &mut [u32], context: ContextId) -> Result<bool, Refusal>
    ensures { leaves (decided result) store.now scratch.new
        ≡ query_call is_empty store.now scratch.old context.0 }
{
    ask(store, scratch, context)?;
    Ok(context == ContextId(0))
}
