// A config added to a set.
ghost use Rattle.std.specs.Prelude.{List, ◌≡◌, ℕ};
ghost use Rattle.sets.specs.Calls.{add_call};
ghost use Rattle.setcheck.specs.Configs.{config_of};
ghost use Rattle.configs.specs.Adding.{Addable, add_rest, insert_call};
ghost use Rattle.sets.specs.Held.{HeldSet};
ghost use Rattle.sets.specs.Words.{set_of};
ghost use Rattle.configs.specs.Replies.{added_left};

use crate::joining::join;
use crate::write::put_config;
use contexts::Tally;
use layout::{ScratchWords, StoreWords};
use setcheck::AtnConfig;
use setcheck::inner::flags::joined_flags;
use setcheck::inner::keys::{bucket_of, find_key, key_of};
use setcheck::inner::open::open_set;
use setcheck::inner::places::{MOST_CONFIGS, READ_ONLY};
use setcheck::inner::read::{config_count, flag_word, has_flag};
use words::Refusal;

// What adding a config comes to: inserted, or merged, and what was counted.
#[derive(Clone, Copy)]
pub enum Added {
    Inserted,
    Merged(Tally),
}

// Puts a config last, where the set has room. Refused 8.
fn insert(set: &mut [u32], config: AtnConfig) -> Result<Added, Refusal>
    requires { HeldSet set.old (set_of set.old) }
    ensures { (w z : List ℕ) → added_left result w set.new z ≡ insert_call w set.old z (config_of config) }
{
    let count = config_count(set) as usize;
    if MOST_CONFIGS <= count {
        return Err(Refusal::FullSet);
    }
    let flags = flag_word(set);
    put_config(set, count, config);
    set[0] = (count + 1) as u32;
    set[1] = joined_flags(flags, config);
    Ok(Added::Inserted)
}

// Adds a config of a known context to an open set. Refused 8, 12 or 6.
fn add_known(
    store: &mut StoreWords,
    set: &mut [u32],
    scratch: &mut ScratchWords,
    config: AtnConfig,
) -> Result<Added, Refusal>
    requires { Addable store.old set.old scratch.old (config_of config) }
    ensures { added_left result store.new set.new scratch.new ≡ add_rest store.old set.old (config_of config) }
{
    let count = config_count(set) as usize;
    let bucket = bucket_of(key_of(config));
    let Some(place) = find_key(set, scratch, count, config, bucket) else {
        words::clear(scratch);
        return insert(set, config);
    };
    join(store, set, scratch, place, config)
}

// Adds a config. Refused 2, 1, 3, 7, 4, 8, and then 6 or 12, by which is reached first.
pub fn add(
    store: &mut [u32],
    set: &mut [u32],
    scratch: &mut [u32],
    config: AtnConfig,
) -> Result<Added, Refusal>
    ensures { added_left result store.new set.new scratch.new ≡ add_call store.old set.old scratch.old
        (config_of config) }
{
    let store = store.as_mut_array().ok_or(Refusal::WrongLength)?;
    let scratch = scratch.as_mut_array().ok_or(Refusal::WrongLength)?;
    open_set(store, set, scratch)?;
    if has_flag(set, READ_ONLY) {
        words::clear(scratch);
        return Err(Refusal::ReadOnlySet);
    }
    if layout::count_of(store) <= config.context.0 {
        words::clear(scratch);
        return Err(Refusal::UnknownContext);
    }
    add_known(store, set, scratch, config)
}
