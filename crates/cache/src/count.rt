// The merges of a call, counted.
ghost use Rattle.std.specs.Prelude.{◌≡◌};
ghost use Rattle.cache.specs.Cache.{Counts, merges_counted};

use crate::places::{MERGES, MOST_MERGES};
use layout::ScratchWords;

// Counts one merge more, if the ceiling is not reached.
pub fn count_merge(scratch: &mut ScratchWords) -> bool
    ensures { Counts scratch.old result scratch.new }
{
    let counted = scratch[MERGES];
    if counted < MOST_MERGES {
        scratch[MERGES] = counted + 1;
        return true;
    }
    false
}

// How many merges were counted.
pub fn merges_counted(scratch: &ScratchWords) -> u32
    ensures { result ≡ merges_counted scratch.now }
{
    scratch[MERGES]
}
