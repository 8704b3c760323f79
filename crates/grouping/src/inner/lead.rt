// For each config the first that is alike, and the next.
ghost use Rattle.std.specs.Prelude.{◌≡◌, suc, ◌+◌, ◌<◌, length};
ghost use Rattle.encoding.specs.Decide.{same_words};
ghost use Rattle.encoding.specs.Layout.{scratch_words};
ghost use Rattle.groups.specs.Chains.{last};
ghost use Rattle.groups.specs.Layout.{config_at, config_count, most_configs, set_words_length};
ghost use Rattle.groups.specs.Words.{configs_in};
ghost use Rattle.groups.specs.Groups.{firsts};
ghost use Rattle.setcheck.specs.Keys.{key_words, place_of};
ghost use Rattle.grouping.specs.Alike.{alike_at, alike_of, shared_words};
ghost use Rattle.grouping.specs.Find.{SoughtAlike};
ghost use Rattle.grouping.specs.Led.{Led, Lent, followed};

use crate::inner::places::{LEADERS, MEMBERS};
use crate::inner::traits::{Alike, traits_of};
use setcheck::inner::keys::{bucket_of, last_chained, link_key};
use setcheck::inner::places::{KEY_HEADS, KEY_LINKS};
use setcheck::inner::read::config_count;

// The last config before `place` that is alike, by the chain of its bucket.
pub fn find_alike(
    set: &[u32],
    scratch: &[u32],
    place: usize,
    alike: Alike,
    bucket: usize,
) -> Option<usize>
    requires { SoughtAlike set.now alike place scratch.now bucket }
    ensures { place_of result ≡ last (λ j. alike_at set.now alike j place) place }
{
    let traits = traits_of(set, place, alike);
    last_chained(
        scratch,
        bucket,
        |before|
            requires { (length set.now ≡ set_words_length) × (before < most_configs) }
            ensures { result ≡ same_words (shared_words alike (config_at set.entry.now before)) (key_words traits) }
        { traits_of(set, before, alike) == traits },
    )
}

// Puts a config after the last one before it that is alike: both have one first.
fn follow(scratch: &mut [u32], place: usize, before: usize)
    requires { (length scratch.old ≡ scratch_words) × (place < most_configs) × (before < most_configs) }
    ensures { scratch.new ≡ followed scratch.old place before }
{
    scratch[LEADERS + place] = scratch[LEADERS + before];
    scratch[MEMBERS + before] = (place + 1) as u32;
}

// Notes for one config more which is the first that is alike, and tells the last one before it. How many
// first ones more are there, 1 or 0?
pub fn lead(set: &[u32], scratch: &mut [u32], place: usize, alike: Alike) -> usize
    requires { Led set.now alike place scratch.old × (place < most_configs) }
    ensures { Led set.now alike (suc place) scratch.new
        × (length (firsts (alike_of alike) (configs_in set.now (suc place))) ≡ length (firsts (alike_of alike) (configs_in set.now place)) + result) }
{
    let bucket = bucket_of(traits_of(set, place, alike));
    let found = find_alike(set, scratch, place, alike, bucket);
    link_key(scratch, place, bucket);
    scratch[MEMBERS + place] = 0;
    let Some(before) = found else {
        scratch[LEADERS + place] = place as u32;
        return 1;
    };
    follow(scratch, place, before);
    0
}

// The same for every config. How many first ones are there?
pub fn lead_all(set: &[u32], scratch: &mut [u32], alike: Alike) -> usize
    requires { Lent set.now scratch.old }
    ensures { Led set.now alike (config_count set.now) scratch.new
        × (result ≡ length (firsts (alike_of alike) (configs_in set.now (config_count set.now)))) }
{
    words::clear_range(scratch, KEY_HEADS, KEY_LINKS);
    let count = config_count(set) as usize;
    let mut firsts = 0;
    for place in 0..count {
        firsts += lead(set, scratch, place, alike);
    }
    firsts
}
