// Doors for measuring only: leaves of `words`, called from rust/bench beside their Rust twins.
#![tactic(auto)]

ghost use Rattle.std.specs.Prelude.{◌≤◌, length, replicate, ◌≡◌};
ghost use Rattle.words.specs.Hash.{hash_of, mixed};
ghost use Rattle.words.specs.Lent.{all_zero, copied_range};

// Sets every word to 0.
#[unsafe(no_mangle)]
pub extern "C" fn measure_clear(words: &mut [u32])
    ensures { words.new ≡ replicate (length words.old) 0 }
{
    words::clear(words);
}

// Copies all of source over the start of target.
#[unsafe(no_mangle)]
pub extern "C" fn measure_copy(target: &mut [u32], source: &[u32])
    requires { length source.now ≤ length target.old }
    ensures { target.new ≡ copied_range target.old 0 source.now 0 (length source.now) }
{
    words::copy_range(target, 0, source, 0, source.len());
}

// Are all words 0?
#[unsafe(no_mangle)]
pub extern "C" fn measure_all_zero(words: &[u32]) -> bool
    ensures { result ≡ all_zero words.now 0 (length words.now) }
{
    words::all_zero(words, 0, words.len())
}

// The hash after one word more.
#[unsafe(no_mangle)]
pub extern "C" fn measure_mix(hash: u64, word: u64) -> u64
    ensures { result ≡ mixed hash word }
{
    words::mix(hash, word)
}

// The hash of a list of words.
#[unsafe(no_mangle)]
pub extern "C" fn measure_hash(words: &[u64]) -> u64
    ensures { result ≡ hash_of words.now }
{
    words::hash_words(words)
}
