// A set's words, by name.
ghost use Rattle.std.specs.Prelude.{◌≡◌, ◌<◌, length};
ghost use Rattle.sets.specs.Layout.{config_at, config_count, flag, flag_word, most_configs, set_words_length};
ghost use Rattle.setcheck.specs.Configs.{config_of};

use crate::config::AtnConfig;
use crate::inner::places::{
    ALTERNATIVE, CONFIG_WORDS, CONTEXT, FIRST_CONFIG, PROVENANCE, REACH, SEMANTIC, STATE,
};
use words::{Alternative, ContextId, SemanticId};

// How many configs there are.
pub fn config_count(set: &[u32]) -> u32
    requires { length set.now ≡ set_words_length }
    ensures { result ≡ config_count set.now }
{
    set[0]
}

// The flags.
pub fn flag_word(set: &[u32]) -> u32
    requires { length set.now ≡ set_words_length }
    ensures { result ≡ flag_word set.now }
{
    set[1]
}

// Is a flag set?
pub fn has_flag(set: &[u32], bit: u32) -> bool
    requires { (length set.now ≡ set_words_length) × (0 < bit) }
    ensures { result ≡ flag bit set.now }
{
    set[1] / bit % 2 == 1
}

// A config.
pub fn config_at(set: &[u32], place: usize) -> AtnConfig
    requires { (length set.now ≡ set_words_length) × (place < most_configs) }
    ensures { config_of result ≡ config_at set.now place }
{
    let at = FIRST_CONFIG + CONFIG_WORDS * place;
    AtnConfig {
        state: set[at + STATE],
        alt: Alternative(set[at + ALTERNATIVE]),
        context: ContextId(set[at + CONTEXT]),
        semantic_context: SemanticId(set[at + SEMANTIC]),
        reaches_into_outer_context: set[at + REACH],
        semantic_provenance_and_flags: set[at + PROVENANCE],
    }
}
