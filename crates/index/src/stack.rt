// Entries on the stack: parent and state side by side.
ghost use Rattle.std.specs.Prelude.{◌≡◌, ◌+◌, ◌<◌, ◌≤◌};
ghost use Rattle.index.specs.Writes.{Loaded, put_entry};
ghost use Rattle.layout.specs.Layout.{most_entries};
ghost use Rattle.index.specs.Records.{stack_entries};

use crate::places::STACK;
use layout::{Entry, ScratchWords, StoreWords};

// Puts an entry at a place.
pub fn put_entry(scratch: &mut ScratchWords, place: usize, entry: Entry)
    requires { place < stack_entries }
    ensures { scratch.new ≡ put_entry scratch.old place entry.parent.0 entry.state.0 }
{
    scratch[STACK + 2 * place] = entry.parent.0;
    scratch[STACK + 2 * place + 1] = entry.state.0;
}

// Copies n pool entries to the stack, from place `at` on.
pub fn load_entries(
    store: &StoreWords,
    scratch: &mut ScratchWords,
    from: usize,
    n: usize,
    at: usize,
)
    requires pool { from + n ≤ most_entries }
    requires stack { at + n ≤ stack_entries }
    ensures { Loaded store.now scratch.old from n at scratch.new }
{
    for i in 0..n {
        let entry = layout::pool_entry(store, from + i);
        put_entry(scratch, at + i, entry);
    }
}
