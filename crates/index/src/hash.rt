// The hash of entries on the stack, as document 01 lists the words of each kind.
ghost use Rattle.std.specs.Prelude.{◌≡◌, ◌<◌, ◌≤◌};
ghost use Rattle.words.specs.Hash.{hash_from};
ghost use Rattle.index.specs.Hash.{bucket_of, node_hash, parent_words, state_words};
ghost use Rattle.index.specs.Records.{Stacked, hash_in, stack_node};
ghost use Rattle.layout.specs.Layout.{most_contexts};

use crate::reads::{high_of, low_of, stack_entry};
use layout::ScratchWords;
use words::{COMPACT_EMPTY_RETURN_STATE, CompactState};

// The bucket of a hash: its top 9 bits.
pub fn bucket(hash: u64) -> usize
    ensures { (result ≡ bucket_of hash) × (result < 512) }
{
    (hash / 0x80_0000_0000_0000) as usize
}

// The hash that the index holds of a context.
pub fn context_hash(scratch: &ScratchWords, context: usize) -> u64
    requires { context < most_contexts }
    ensures { result ≡ hash_in scratch.now context }
{
    let low = low_of(scratch, context);
    let high = high_of(scratch, context);
    (high as u64) * 0x1_0000_0000 + (low as u64)
}

// Kept as two: they differ in what they take of an entry, and a closure that says so is longer than the loop.
// The hash after the hashes of the parents of n entries.
fn mix_parents(scratch: &ScratchWords, at: usize, n: usize, seed: u64) -> u64
    requires { Stacked scratch.now at n most_contexts }
    ensures { result ≡ hash_from seed (parent_words (hash_in scratch.now) (stack_node scratch.now at n)) }
{
    let mut hash = seed;
    for i in 0..n {
        let parent = stack_entry(scratch, at + i).parent.0 as usize;
        hash = words::mix(hash, context_hash(scratch, parent));
    }
    hash
}

// The hash after the states of n entries.
fn mix_states(scratch: &ScratchWords, at: usize, n: usize, seed: u64) -> u64
    requires { Stacked scratch.now at n most_contexts }
    ensures { result ≡ hash_from seed (state_words (stack_node scratch.now at n)) }
{
    let mut hash = seed;
    for i in 0..n {
        let state = stack_entry(scratch, at + i).state.0;
        hash = words::mix(hash, u64::from(state));
    }
    hash
}

// The hash of an array of n entries.
fn array_hash(scratch: &ScratchWords, at: usize, n: usize) -> u64
    requires stacked { Stacked scratch.now at n most_contexts }
    requires le_n { 2 ≤ n }
    ensures { result ≡ node_hash (hash_in scratch.now) (stack_node scratch.now at n) }
{
    let parents = mix_parents(scratch, at, n, words::mix(words::mix(0, 2), n as u64));
    mix_states(scratch, at, n, words::mix(parents, n as u64))
}

// The hash of n entries.
pub fn entries_hash(scratch: &ScratchWords, at: usize, n: usize) -> u64
    requires stacked { Stacked scratch.now at n most_contexts }
    requires le_n { 1 ≤ n }
    ensures { result ≡ node_hash (hash_in scratch.now) (stack_node scratch.now at n) }
{
    if 2 <= n {
        return array_hash(scratch, at, n);
    }
    let entry = stack_entry(scratch, at);
    if entry.state.0 == COMPACT_EMPTY_RETURN_STATE {
        return words::empty_hash();
    }
    let parent = entry.parent.0 as usize;
    words::singleton_hash(context_hash(scratch, parent), CompactState(entry.state.0))
}
