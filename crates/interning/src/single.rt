// A return state placed on top of each stack of a context.
ghost use Rattle.std.specs.Prelude.{◌≡◌, ◌<◌};
ghost use Rattle.layout.specs.Layout.{count, stop};
ghost use Rattle.interning.specs.SingletonCall.Laws.{placed_single};
ghost use Rattle.interning.specs.SingletonCall.{singleton_call};
ghost use Rattle.interning.specs.Live.{Live};
ghost use Rattle.interning.specs.Replies.{numbered};

use crate::inner::intern::intern_entries;
use crate::numbered::Numbered;
use layout::{Entry, ScratchWords, StoreWords};
use store::inner::admit::admit;
use words::{COMPACT_EMPTY_RETURN_STATE, CompactState, ContextId, Refusal, ReturnState};

// Places a stored state over a known context of a live store. There are no sides to try: the parent stands for them.
fn place_single(
    store: &mut StoreWords,
    scratch: &mut ScratchWords,
    parent: ContextId,
    state: CompactState,
) -> Result<Numbered, Refusal>
    requires { Live store.old scratch.old × (parent.0 < count store.old) × (state.0 < stop) }
    ensures { numbered result store.new scratch.new ≡ placed_single store.old parent.0 state.0 }
{
    index::put_entry(scratch, 0, Entry { parent, state });
    let placed = intern_entries(store, scratch, 0, 1, parent, parent);
    words::clear(scratch);
    placed
}

// The context of `state` over `parent`. Refused 2, 1, 4, 5 or 6, in this order of checking.
pub fn singleton(
    store: &mut [u32],
    scratch: &mut [u32],
    parent: ContextId,
    state: ReturnState,
) -> Result<Numbered, Refusal>
    ensures { numbered result store.new scratch.new ≡ singleton_call store.old scratch.old parent.0 state.0 }
{
    let store = store.as_mut_array().ok_or(Refusal::WrongLength)?;
    let scratch = scratch.as_mut_array().ok_or(Refusal::WrongLength)?;
    admit(store, scratch, parent)?;
    let Ok(held) = CompactState::try_from(state) else {
        words::clear(scratch);
        return Err(Refusal::StateOutOfRange);
    };
    if held.0 == COMPACT_EMPTY_RETURN_STATE {
        words::clear(scratch);
        return Ok(Numbered::found(ContextId(0)));
    }
    place_single(store, scratch, parent, held)
}
