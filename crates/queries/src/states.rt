// The return state of a context's entry at an index.
ghost use Rattle.std.specs.Prelude.{◌≡◌, Ok};
ghost use Rattle.arena.specs.Store.{node_at};
ghost use Rattle.layout.specs.Decode.{store_of};
ghost use Rattle.store.specs.Calls.{leaves};
ghost use Rattle.queries.specs.Answers.{state_found};
ghost use Rattle.store.specs.Asks.{Known};
ghost use Rattle.queries.specs.Queries.{entry_state, query_call};
ghost use Rattle.queries.specs.Listed.{state_at};

use layout::{Record, StoreWords};
use store::inner::ask::ask;
use words::{ContextId, EMPTY_RETURN_STATE, Refusal, ReturnState};

// The state of an entry, as the border shows it; context 0 has one entry, a `$`.
fn state_at(store: &StoreWords, context: usize, index: usize) -> Option<ReturnState>
    requires { Known store.now context }
    ensures { state_found (Ok result) ≡ state_at (node_at (store_of store.now) context) index }
{
    match layout::record_of(store, context) {
        Record::Single(entry) => {
            if index == 0 {
                return Some(ReturnState::from(entry.state));
            }
            None
        }
        Record::Array(from, n) => {
            if index < n as usize {
                let held = layout::pool_entry(store, from as usize + index).state;
                return Some(ReturnState::from(held));
            }
            None
        }
        _ => {
            if index == 0 {
                return Some(ReturnState(EMPTY_RETURN_STATE));
            }
            None
        }
    }
}

// What is the state of a context's entry at an index?
pub fn return_state(
    store: &[u32],
    scratch: &mut [u32],
    context: ContextId,
    index: u32,
) -> Result<Option<ReturnState>, Refusal>
    ensures { leaves (state_found result) store.now scratch.new
        ≡ query_call (entry_state index) store.now scratch.old context.0 }
{
    let store = ask(store, scratch, context)?;
    Ok(state_at(store, context.0 as usize, index as usize))
}
