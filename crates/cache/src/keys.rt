// The key of a merge, and the bucket where its result is looked for.
ghost use Rattle.std.specs.Prelude.{◌≡◌, ◌<◌, max, min};
ghost use Rattle.cache.specs.Cache.{bucket_of, key_of};
ghost use Rattle.work.specs.Layout.{most_contexts};

use words::ContextId;

// Kind of merge and two sides in one number of 19 bits.
fn key_of(root_is_wildcard: bool, smaller: u32, larger: u32) -> u32
    requires { (smaller < most_contexts) × (larger < most_contexts) }
    ensures { (result ≡ key_of root_is_wildcard smaller larger) × (result < 524288) }
{
    let kind = root_is_wildcard as u32;
    (kind * 512 + smaller) * 512 + larger
}

// The key of a merge: the smaller side first.
pub fn merge_key(left: ContextId, right: ContextId, root_is_wildcard: bool) -> u32
    requires { (left.0 < most_contexts) × (right.0 < most_contexts) }
    ensures { (result ≡ key_of root_is_wildcard (min left.0 right.0) (max left.0 right.0)) × (result < 524288) }
{
    key_of(root_is_wildcard, left.0.min(right.0), left.0.max(right.0))
}

// The bucket of a key: the top 10 bits of the lower half of a product.
pub fn bucket(key: u32) -> usize
    ensures { (result ≡ bucket_of key) × (result < 1024) }
{
    ((key as u64) * 2654435769 / 4194304 % 1024) as usize
}
