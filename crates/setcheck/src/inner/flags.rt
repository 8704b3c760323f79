// The two flags that a set's configs decide.
ghost use Rattle.std.specs.Prelude.{◌≡◌};
ghost use Rattle.setcheck.specs.Configs.{config_of};
ghost use Rattle.setcheck.specs.Flags.{joined_flags, with_flag};

use crate::config::AtnConfig;
use crate::inner::places::{DIPS, HAS_SEMANTIC};

// The flags with one more where a word is not 0.
pub fn with_flag(flags: u32, flag: u32, word: u32) -> u32
    ensures { result ≡ with_flag flags flag word }
{
    if word == 0 {
        return flags;
    }
    flags | flag
}

// The flags of a set with one config more.
pub fn joined_flags(flags: u32, config: AtnConfig) -> u32
    ensures { result ≡ joined_flags flags (config_of config) }
{
    let semantic = config.semantic_context.0;
    let reach = config.reaches_into_outer_context;
    with_flag(with_flag(flags, HAS_SEMANTIC, semantic), DIPS, reach)
}
