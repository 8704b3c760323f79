// Lookup of a merge's result among those kept.
ghost use Rattle.std.specs.Prelude.{◌≡◌, max, min};
ghost use Rattle.work.specs.Counted.{recall};
ghost use Rattle.cache.specs.Cache.{Asked, kept_of};
ghost use Rattle.cache.specs.Recalled.{recalled};

use crate::keys::{bucket, merge_key};
use crate::places::{HEADS, LINKS, RESULTS};
use layout::ScratchWords;
use words::ContextId;

// The result kept for a merge of two sides, in either order, if there is one.
pub fn cached(
    scratch: &ScratchWords,
    left: ContextId,
    right: ContextId,
    root_is_wildcard: bool,
) -> Option<ContextId>
    requires { Asked scratch.now left.0 right.0 }
    ensures { recalled result ≡ recall root_is_wildcard (min left.0 right.0) (max left.0 right.0) (kept_of scratch.now) }
{
    let key = merge_key(left, right, root_is_wildcard);
    let chain = bucket(key);
    let mut next = scratch[HEADS + chain];
    // Kept by no heap: the chain stands in the lent scratch, and the walk goes by its links.
    while next != 0 {
        let place = (next - 1) as usize;
        let word = scratch[RESULTS + place];
        if word / 512 == key {
            return Some(ContextId(word % 512));
        }
        next = scratch[LINKS + place];
    }
    None
}
