// A fresh store, written over any earlier contents.
ghost use Rattle.std.specs.Prelude.{◌≡◌};
ghost use Rattle.store.specs.Calls.{fresh_call};
ghost use Rattle.store.specs.Renewed.{renewed};

use layout::StoreWords;
use words::Refusal;

// Makes the lent words a store of context 0 alone.
pub fn fresh(store: &mut [u32]) -> Result<(), Refusal>
    ensures { (renewed result, store.new) ≡ fresh_call store.old }
{
    let store: &mut StoreWords = store.as_mut_array().ok_or(Refusal::WrongLength)?;
    words::clear(store);
    store[0] = 1;
    Ok(())
}
