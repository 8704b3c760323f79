// The checks of a call that only reads.
ghost use Rattle.std.specs.Prelude.{◌≡◌, IfOk};
ghost use Rattle.store.specs.Asks.{Asks};

use crate::inner::admit::admit;
use layout::StoreWords;
use words::{ContextId, Refusal};

// Checks lengths, soundness and that a context is known. The index is not needed after that: the scratch is cleared.
pub fn ask<'a>(
    store: &'a [u32],
    scratch: &mut [u32],
    context: ContextId,
) -> Result<&'a StoreWords, Refusal>
    ensures asked { Asks store.now scratch.old context.0 result scratch.new }
    ensures same { IfOk result (λ words. words.now ≡ store.now) }
{
    let store = store.as_array().ok_or(Refusal::WrongLength)?;
    admit(store, scratch, context)?;
    words::clear(scratch);
    Ok(store)
}
