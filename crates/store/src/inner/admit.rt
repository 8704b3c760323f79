// The checks that every call begins with: lengths (2), soundness (1), a known context (4).
ghost use Rattle.std.specs.Prelude.{◌≡◌, IfOk};
ghost use Rattle.store.specs.Admit.{Admits, Opened};

use layout::{ScratchWords, StoreWords};
use storecheck::inner::check::check_store;
use words::{ContextId, Refusal};

// Checks soundness. Where the store is sound, its index stands in the scratch.
fn open_words(store: &StoreWords, scratch: &mut ScratchWords) -> Result<(), Refusal>
    ensures { Opened store.now scratch.old result scratch.new }
{
    if check_store(store, scratch) {
        return Ok(());
    }
    words::clear(scratch);
    Err(Refusal::UnsoundStore)
}

// Checks lengths and soundness. Where the store is sound, its index stands in the scratch.
pub fn open_store<'a>(store: &'a [u32], scratch: &mut [u32]) -> Result<&'a StoreWords, Refusal>
    ensures opened { Opened store.now scratch.old result scratch.new }
    ensures same { IfOk result (λ words. words.now ≡ store.now) }
{
    let store = store.as_array().ok_or(Refusal::WrongLength)?;
    let scratch = scratch.as_mut_array().ok_or(Refusal::WrongLength)?;
    open_words(store, scratch)?;
    Ok(store)
}

// Checks lengths, soundness and that a context is known.
pub fn admit(store: &[u32], scratch: &mut [u32], context: ContextId) -> Result<(), Refusal>
    ensures { Admits store.now scratch.old context.0 result scratch.new }
{
    let store = open_store(store, scratch)?;
    if context.0 < layout::count_of(store) {
        return Ok(());
    }
    words::clear(scratch);
    Err(Refusal::UnknownContext)
}
