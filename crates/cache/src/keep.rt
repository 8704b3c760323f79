// The cache made empty, and a result kept.
ghost use Rattle.std.specs.Prelude.{◌≡◌, ◌<◌};
ghost use Rattle.cache.specs.Cache.{Asked, Emptied, Remembered, put_result};
ghost use Rattle.work.specs.Layout.{most_contexts};
ghost use Rattle.work.specs.Counted.{most_results};

use crate::keys::{bucket, merge_key};
use crate::places::{BUCKETS, HEADS, KEPT, LINKS, MERGES, MOST_RESULTS, RESULTS};
use layout::ScratchWords;
use words::ContextId;

// No result kept and no merge counted.
pub fn clear_cache(scratch: &mut ScratchWords)
    ensures { Emptied scratch.old scratch.new }
{
    words::clear_range(scratch, HEADS, HEADS + BUCKETS);
    scratch[KEPT] = 0;
    scratch[MERGES] = 0;
}

// Writes a result at its place, in front of its bucket's chain.
fn put_result(scratch: &mut ScratchWords, place: usize, key: u32, res: u32)
    requires { (place < most_results) × (key < 524288) × (res < most_contexts) }
    ensures { scratch.new ≡ put_result scratch.old place key res }
{
    let chain = bucket(key);
    let older = scratch[HEADS + chain];
    scratch[RESULTS + place] = key * 512 + res;
    scratch[LINKS + place] = older;
    scratch[HEADS + chain] = (place + 1) as u32;
    scratch[KEPT] = (place + 1) as u32;
}

// Keeps the result of a merge while fewer than `MOST_RESULTS` are kept.
pub fn remember(
    scratch: &mut ScratchWords,
    left: ContextId,
    right: ContextId,
    root_is_wildcard: bool,
    res: ContextId,
)
    requires { Asked scratch.old left.0 right.0 × (res.0 < most_contexts) }
    ensures { Remembered scratch.old root_is_wildcard left.0 right.0 res.0 scratch.new }
{
    let kept = scratch[KEPT];
    if MOST_RESULTS <= kept {
        return;
    }
    let key = merge_key(left, right, root_is_wildcard);
    put_result(scratch, kept as usize, key, res.0);
}
