// The checks that every call on a set begins with: lengths (2), the store (1), the set (3).
ghost use Rattle.setcheck.specs.Opened.{OpenedSet};

use crate::inner::check::check_set;
use crate::inner::places::SET_WORDS;
use store::inner::admit::open_store;
use words::Refusal;

// Where store and set are sound, the store's index and the chains of the set's keys stand in the scratch.
pub fn open_set(store: &[u32], set: &[u32], scratch: &mut [u32]) -> Result<(), Refusal>
    ensures { OpenedSet store.now set.now scratch.old result scratch.new }
{
    if set.len() != SET_WORDS {
        return Err(Refusal::WrongLength);
    }
    let store = open_store(store, scratch)?;
    let contexts = layout::count_of(store);
    if check_set(set, scratch, contexts) {
        return Ok(());
    }
    words::clear(scratch);
    Err(Refusal::UnsoundSet)
}
