// Where the cache stands in the scratch's 16,384 words, and its two ceilings.
// Kept by no heap: tables and chains by index in lent words, where Rattle has Vec and maps.

// A word for each result, in order of completion: kind, sides and context in 1, 9, 9 and 9 bits.
pub const RESULTS: usize = 2048;

// 1 + the place of the next older result of the same bucket, or 0.
pub const LINKS: usize = 3072;

// 1 + the place of a bucket's newest result, or 0.
pub const HEADS: usize = 4096;

pub const BUCKETS: usize = 1024;

// The word that counts the results kept.
pub const KEPT: usize = 16336;

// The word that counts the merges.
pub const MERGES: usize = 16337;

pub const MOST_RESULTS: u32 = 1024;

pub const MOST_MERGES: u32 = 65536;
