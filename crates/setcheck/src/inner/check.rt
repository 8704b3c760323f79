// One pass over a set's configs that judges them and chains their keys.
ghost use Rattle.std.specs.Prelude.{◌≡◌, ◌<◌, ◌≤◌, length};
ghost use Rattle.layout.specs.Layout.{scratch_words};
ghost use Rattle.sets.specs.Layout.{config_at, most_configs, set_words_length};
ghost use Rattle.setcheck.specs.Configs.{config_of};
ghost use Rattle.setcheck.specs.Judged.{JudgedConfigs, JudgedConfig, PassedConfigs, SetVerdict};

use crate::config::AtnConfig;
use crate::inner::flags::joined_flags;
use crate::inner::keys::{bucket_of, find_key, key_of, link_key};
use crate::inner::places::{
    CONFIG_WORDS, DECIDED_FLAGS, FIRST_CONFIG, FLAGS_END, KEY_HEADS, KEY_LINKS, MOST_CONFIGS,
    SET_WORDS,
};
use crate::inner::read::{config_at, config_count, flag_word};

// Is a config, after those before it, one of a known context and a new key? Then its key is chained.
fn check_config(
    set: &[u32],
    scratch: &mut [u32],
    contexts: u32,
    place: usize,
    config: AtnConfig,
) -> bool
    requires { PassedConfigs set.now scratch.old contexts place × (place < most_configs) × (config_of config ≡ config_at set.now place) }
    ensures { JudgedConfig set.now scratch.old contexts place result scratch.new }
{
    if contexts <= config.context.0 {
        return false;
    }
    let bucket = bucket_of(key_of(config));
    if find_key(set, scratch, place, config, bucket).is_some() {
        return false;
    }
    link_key(scratch, place, bucket);
    true
}

// Judges the configs, the first to the last: the flags that they ask for, or None where one is not sound.
fn check_configs(set: &[u32], scratch: &mut [u32], contexts: u32, count: usize) -> Option<u32>
    requires { PassedConfigs set.now scratch.old contexts 0 × (count ≤ most_configs) }
    ensures { JudgedConfigs set.now scratch.old contexts count result scratch.new }
{
    let mut flags: u32 = 0;
    for place in 0..count {
        let config = config_at(set, place);
        if !check_config(set, scratch, contexts, place, config) {
            return None;
        }
        flags = joined_flags(flags, config);
    }
    Some(flags)
}

// Is the set sound with a store of so many contexts? Then its keys are chained in the scratch.
pub fn check_set(set: &[u32], scratch: &mut [u32], contexts: u32) -> bool
    requires { (length set.now ≡ set_words_length) × (length scratch.old ≡ scratch_words) }
    ensures { SetVerdict set.now scratch.old contexts result scratch.new }
{
    let count = config_count(set) as usize;
    if MOST_CONFIGS < count {
        return false;
    }
    words::clear_range(scratch, KEY_HEADS, KEY_LINKS);
    let Some(flags) = check_configs(set, scratch, contexts, count) else {
        return false;
    };
    let held = flag_word(set);
    if FLAGS_END <= held {
        return false;
    }
    if held & DECIDED_FLAGS != flags {
        return false;
    }
    words::all_zero(set, FIRST_CONFIG + CONFIG_WORDS * count, SET_WORDS)
}
