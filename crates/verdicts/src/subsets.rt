// All subsets: whether each has two or more alternatives, and whether they are equal.
ghost use Rattle.std.specs.Prelude.{◌≡◌, []};
ghost use Rattle.verdicts.specs.Calls.{all_subsets_conflict_call, all_subsets_equal_call, verdict_left};
ghost use Rattle.verdicts.specs.Replies.{decided};

use deciding::inner::equal::subsets_equal;
use grouping::inner::marks::{Picks, each_picked};
use grouping::inner::traits::Alike;
use setcheck::inner::open::open_set;
use words::Refusal;

// Has each subset two or more alternatives? Then each config has a rival in its own.
pub fn all_subsets_conflict(
    store: &[u32],
    set: &[u32],
    scratch: &mut [u32],
) -> Result<bool, Refusal>
    ensures { verdict_left (decided result) scratch.new []
        ≡ all_subsets_conflict_call store.now set.now scratch.old }
{
    open_set(store, set, scratch)?;
    let yes = each_picked(set, scratch, Alike::Place, Picks::Rivals);
    words::clear(scratch);
    Ok(yes)
}

// Are all subsets equal?
pub fn all_subsets_equal(store: &[u32], set: &[u32], scratch: &mut [u32]) -> Result<bool, Refusal>
    ensures { verdict_left (decided result) scratch.new []
        ≡ all_subsets_equal_call store.now set.now scratch.old }
{
    open_set(store, set, scratch)?;
    let yes = subsets_equal(set, scratch);
    words::clear(scratch);
    Ok(yes)
}
