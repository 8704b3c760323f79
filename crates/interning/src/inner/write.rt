// Entries on the stack written to the pool.
ghost use Rattle.std.specs.Prelude.{◌≡◌, ◌+◌, ◌≤◌};
ghost use Rattle.layout.specs.Encode.{fill};
ghost use Rattle.index.specs.Records.{Stacked, stack_node};
ghost use Rattle.layout.specs.Layout.{most_contexts, most_entries};

use layout::{ScratchWords, StoreWords, put_pool};

// Copies n entries from the stack to the pool, from place `used` on.
pub fn fill_pool(store: &mut StoreWords, scratch: &ScratchWords, used: usize, at: usize, n: usize)
    requires pool { used + n ≤ most_entries }
    requires stacked { Stacked scratch.now at n most_contexts }
    ensures { store.new ≡ fill store.old used (stack_node scratch.now at n) }
{
    for i in 0..n {
        let entry = index::stack_entry(scratch, at + i);
        put_pool(store, used + i, entry);
    }
}
