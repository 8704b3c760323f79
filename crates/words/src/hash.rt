// The interner's hash: each word is taken in by a rotation, an xor and a multiplication modulo 2^64.
ghost use Rattle.std.specs.Prelude.{◌≡◌};
ghost use Rattle.words.specs.Hash.{empty_words, hash_of, mixed, singleton_words};

use crate::multiply::wrapping_mul;
use crate::names::CompactState;

// The factor of each step.
pub const FX_SEED: u64 = 0x517c_c1b7_2722_0a95;

// The hash after one word more.
pub fn mix(hash: u64, word: u64) -> u64
    ensures { result ≡ mixed hash word }
{
    wrapping_mul(hash.rotate_left(5) ^ word, FX_SEED)
}

// The hash of a list of words.
pub fn hash_words(words: &[u64]) -> u64
    ensures { result ≡ hash_of words.now }
{
    let mut hash: u64 = 0;
    for &word in words {
        hash = mix(hash, word);
    }
    hash
}

// The hash of context 0.
pub fn empty_hash() -> u64
    ensures { result ≡ hash_of empty_words }
{
    mix(0, 0)
}

// The hash of a singleton over a parent with this hash.
pub fn singleton_hash(parent_hash: u64, state: CompactState) -> u64
    ensures { result ≡ hash_of (singleton_words parent_hash state.0) }
{
    mix(mix(mix(0, 1), parent_hash), u64::from(state.0))
}
