// Work on words that a caller lends: clear, copy, and test for zeros. Each loop is plain, so that
// it compiles to wide moves.
ghost use Rattle.std.specs.Prelude.{◌≡◌, ◌+◌, ◌≤◌, length, replicate};
ghost use Rattle.words.specs.Lent.{all_zero, cleared_range, copied_range};

// Sets every word to 0.
pub fn clear(words: &mut [u32])
    ensures { words.new ≡ replicate (length words.old) 0 }
{
    let end = words.len();
    clear_range(words, 0, end);
}

// Sets the words from `from` up to, not including, `to` to 0.
// By a loop: the library's `fill` costs a few words as much again (docs/DESIGN-PASS.md).
pub fn clear_range(words: &mut [u32], from: usize, to: usize)
    requires { (from ≤ to) × (to ≤ length words.old) }
    ensures { words.new ≡ cleared_range words.old from to }
{
    for i in from..to {
        words[i] = 0;
    }
}

// Copies `count` words of source, from `from` on, over those of target from `at` on.
// By a loop: with the library's copy a C archive asks for `memmove` from outside.
pub fn copy_range(target: &mut [u32], at: usize, source: &[u32], from: usize, count: usize)
    requires { (at + count ≤ length target.old) × (from + count ≤ length source.now) }
    ensures { target.new ≡ copied_range target.old at source.now from count }
{
    for done in 0..count {
        target[at + done] = source[from + done];
    }
}

// Are all words from `from` up to, not including, `to` 0? All of them are read, without a way out
// in the middle, so that wide loads serve.
pub fn all_zero(words: &[u32], from: usize, to: usize) -> bool
    requires { (from ≤ to) × (to ≤ length words.now) }
    ensures { result ≡ all_zero words.now from to }
{
    let mut seen: u32 = 0;
    for &word in &words[from..to] {
        seen |= word;
    }
    seen == 0
}
