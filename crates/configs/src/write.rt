// A config written into a set.
ghost use Rattle.std.specs.Prelude.{◌≡◌, ◌<◌, length};
ghost use Rattle.sets.specs.Layout.{most_configs, set_words_length};
ghost use Rattle.setcheck.specs.Configs.{config_of};
ghost use Rattle.configs.specs.Writes.{put_config};

use setcheck::AtnConfig;
use setcheck::inner::places::{
    ALTERNATIVE, CONFIG_WORDS, CONTEXT, FIRST_CONFIG, PROVENANCE, REACH, SEMANTIC, STATE,
};

// Writes the words of a config.
pub fn put_config(set: &mut [u32], place: usize, config: AtnConfig)
    requires { (length set.old ≡ set_words_length) × (place < most_configs) }
    ensures { set.new ≡ put_config set.old place (config_of config) }
{
    let at = FIRST_CONFIG + CONFIG_WORDS * place;
    set[at + STATE] = config.state;
    set[at + ALTERNATIVE] = config.alt.0;
    set[at + CONTEXT] = config.context.0;
    set[at + SEMANTIC] = config.semantic_context.0;
    set[at + REACH] = config.reaches_into_outer_context;
    set[at + PROVENANCE] = config.semantic_provenance_and_flags;
}
