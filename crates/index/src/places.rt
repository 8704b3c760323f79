// Where the index and the entry stack stand in the scratch's 16,384 words.
// Kept by no heap: tables and chains by index in lent words, where Rattle has Vec and maps.

pub const HEADS: usize = 0;

pub const BUCKETS: usize = 512;

pub const LINKS: usize = 512;

pub const LOWS: usize = 1024;

pub const HIGHS: usize = 1536;

pub const STACK: usize = 7936;
