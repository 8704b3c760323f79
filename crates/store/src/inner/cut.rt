// A store cut back to an earlier count and pool.
ghost use Rattle.std.specs.Prelude.{◌≡◌, ◌≤◌};
ghost use Rattle.encoding.specs.Cut.{cut};
ghost use Rattle.layout.specs.Layout.{most_contexts, most_entries};

use layout::{PARENTS, RECORDS, STATES, STORE_WORDS, StoreWords, put_counts};

// Takes out all records from `count` on and all pool entries from `used` on.
pub fn cut_back(store: &mut StoreWords, count: usize, used: usize)
    requires { (count ≤ most_contexts) × (used ≤ most_entries) }
    ensures { store.new ≡ cut store.old count used }
{
    words::clear_range(store, RECORDS + 3 * count, PARENTS);
    words::clear_range(store, PARENTS + used, STATES);
    words::clear_range(store, STATES + used, STORE_WORDS);
    put_counts(store, count, used);
}
