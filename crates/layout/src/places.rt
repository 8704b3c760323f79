// Where things stand in the 5,634 words of a store, and how much a store and the scratch hold.
// Kept by no heap: tables and chains by index in lent words, where Rattle has Vec and maps.

pub const STORE_WORDS: usize = 5634;

pub const SCRATCH_WORDS: usize = 16384;

// A store's words, and the scratch's, as functions take them whose caller has seen to the lengths.
pub type StoreWords = [u32; STORE_WORDS];

pub type ScratchWords = [u32; SCRATCH_WORDS];

// The ceilings.
pub const MOST_CONTEXTS: usize = 512;

pub const MOST_ENTRIES: usize = 2048;

// Records of three words, after the two counts.
pub const RECORDS: usize = 2;

// The pool: parents, then states.
pub const PARENTS: usize = 1538;

pub const STATES: usize = 3586;
