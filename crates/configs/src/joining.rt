// A config joined to the one of the set that has its key.
ghost use Rattle.std.specs.Prelude.{◌≡◌};
ghost use Rattle.sets.specs.Sets.{joined};
ghost use Rattle.setcheck.specs.Configs.{config_of};
ghost use Rattle.configs.specs.Adding.{Joinable, join_call};
ghost use Rattle.configs.specs.Replies.{added_left};

use crate::adding::Added;
use crate::write::put_config;
use contexts::inner::merge_known;
use layout::{ScratchWords, StoreWords};
use setcheck::AtnConfig;
use setcheck::inner::flags::joined_flags;
use setcheck::inner::places::FULL_CONTEXT;
use setcheck::inner::read::{config_at, flag_word, has_flag};
use words::{ContextId, Refusal};

// The config of the set, joined with another of its key, over the merged context.
fn joined_config(held: AtnConfig, config: AtnConfig, context: ContextId) -> AtnConfig
    ensures { config_of result ≡ joined (config_of config) context.0 (config_of held) }
{
    let reach = config.reaches_into_outer_context;
    let provenance = config.semantic_provenance_and_flags;
    AtnConfig {
        context,
        reaches_into_outer_context: held.reaches_into_outer_context.max(reach),
        semantic_provenance_and_flags: words::merge_marks(
            held.semantic_provenance_and_flags,
            provenance,
        ),
        ..held
    }
}

// Joins a config to the one at a place that has its key. Refused 12 or 6.
pub fn join(
    store: &mut StoreWords,
    set: &mut [u32],
    scratch: &mut ScratchWords,
    place: usize,
    config: AtnConfig,
) -> Result<Added, Refusal>
    requires { Joinable store.old set.old scratch.old place (config_of config) }
    ensures { added_left result store.new set.new scratch.new ≡ join_call store.old set.old place (config_of config) }
{
    let held = config_at(set, place);
    let wildcard = !has_flag(set, FULL_CONTEXT);
    let merged = merge_known(store, scratch, held.context, config.context, wildcard)?;
    put_config(set, place, joined_config(held, config, merged.context));
    set[1] = joined_flags(flag_word(set), config);
    Ok(Added::Merged(merged.tally))
}
