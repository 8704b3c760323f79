// Keys of configs: compared, and found through chains in the scratch. A bucket only picks the chain: every
// candidate is compared.
ghost use Rattle.std.specs.Prelude.{◌≡◌, ◌<◌, length};
ghost use Rattle.layout.specs.Layout.{scratch_words};
ghost use Rattle.sets.specs.Chains.{last};
ghost use Rattle.sets.specs.Layout.{most_configs, set_words_length};
ghost use Rattle.sets.specs.Sets.{key, same_keys};
ghost use Rattle.setcheck.specs.Configs.{config_of};
ghost use Rattle.setcheck.specs.Keys.{LastChained, SomeChains, SoughtKey, has_key, key_bucket, key_words, place_of, put_key};

use crate::config::AtnConfig;
use crate::inner::places::{KEY_HEADS, KEY_LINKS};
use crate::inner::read::config_at;

// What configs are compared by: up to four numbers, 0 for what is left out.
#[derive(Clone, Copy, PartialEq, Eq)]
pub struct Key(pub u32, pub u32, pub u32, pub u32);

// The key of a config. The provenance's mark is no part of it.
pub fn key_of(config: AtnConfig) -> Key
    ensures { key_words result ≡ key (config_of config) }
{
    let id = words::provenance_id(config.semantic_provenance_and_flags);
    Key(config.state, config.alt.0, config.semantic_context.0, id)
}

// Have two configs the same key?
pub fn same_key(one: AtnConfig, other: AtnConfig) -> bool
    ensures { result ≡ same_keys (config_of one) (config_of other) }
{
    key_of(one) == key_of(other)
}

// The bucket of a key: 8 bits of a product.
pub fn bucket_of(key: Key) -> usize
    ensures { (result ≡ key_bucket (key_words key)) × (result < 256) }
{
    let rest = u64::from(key.2) + 31 * u64::from(key.3);
    let mixed = u64::from(key.0) + 31 * (u64::from(key.1) + 31 * rest);
    (mixed % 0x1_0000_0000 * 2654435769 / 0x100_0000 % 256) as usize
}

// The last place that passes a test, by the chain of a bucket.
pub fn last_chained<F: Fn(usize) -> bool>(
    scratch: &[u32],
    bucket: usize,
    passes: F,
) -> Option<usize>
    requires { SomeChains scratch.now bucket (F.pre passes) }
    ensures { LastChained scratch.now bucket (F.post passes) result }
{
    let mut next = scratch[KEY_HEADS + bucket];
    // Kept by no heap: the chains stand in the lent scratch, and the walk goes by their links.
    while next != 0 {
        let place = (next - 1) as usize;
        if passes(place) {
            return Some(place);
        }
        next = scratch[KEY_LINKS + place];
    }
    None
}

// Where the key of `config` stands among the first `count` configs, by the chain of its bucket.
pub fn find_key(
    set: &[u32],
    scratch: &[u32],
    count: usize,
    config: AtnConfig,
    bucket: usize,
) -> Option<usize>
    requires { SoughtKey set.now scratch.now count (config_of config) bucket }
    ensures { place_of result ≡ last (has_key set.now (config_of config)) count }
{
    last_chained(
        scratch,
        bucket,
        |place|
            requires { (length set.now ≡ set_words_length) × (place < most_configs) }
            ensures { result ≡ has_key set.entry.now (config_of config) place }
        { same_key(config, config_at(set, place)) },
    )
}

// Puts a config in front of its bucket's chain.
pub fn link_key(scratch: &mut [u32], place: usize, bucket: usize)
    requires { (length scratch.old ≡ scratch_words) × (place < most_configs) × (bucket < 256) }
    ensures { scratch.new ≡ put_key scratch.old place bucket }
{
    let older = scratch[KEY_HEADS + bucket];
    scratch[KEY_LINKS + place] = older;
    scratch[KEY_HEADS + bucket] = (place + 1) as u32;
}
