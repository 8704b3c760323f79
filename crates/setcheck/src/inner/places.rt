// Where things stand in a set's 1,538 words, and the chains of keys in the scratch: they take the place
// of the merge cache, which a merge clears before it begins.
// Kept by no heap: words and chains by index in lent words, where Rattle has Vec and maps.

pub const SET_WORDS: usize = 1538;

pub const MOST_CONFIGS: usize = 256;

pub const FIRST_CONFIG: usize = 2;

pub const CONFIG_WORDS: usize = 6;

// The words of a config.
pub const STATE: usize = 0;

pub const ALTERNATIVE: usize = 1;

pub const CONTEXT: usize = 2;

pub const SEMANTIC: usize = 3;

pub const REACH: usize = 4;

pub const PROVENANCE: usize = 5;

// The flags.
pub const FULL_CONTEXT: u32 = 1;

pub const HAS_SEMANTIC: u32 = 2;

pub const DIPS: u32 = 4;

pub const READ_ONLY: u32 = 8;

// The flags that the configs decide.
pub const DECIDED_FLAGS: u32 = 6;

// What every sound word of flags is below.
pub const FLAGS_END: u32 = 16;

// Heads and links of the chains.
pub const KEY_HEADS: usize = 2048;

pub const KEY_LINKS: usize = 2304;
