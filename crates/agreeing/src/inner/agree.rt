// Bytes of a recorded answer held against bytes laid out.
ghost use Rattle.std.specs.Prelude.{◌≡◌, ◌++◌, ◌≤◌, drop, length, take};
ghost use Rattle.lines.specs.Check.{Tells};
ghost use Rattle.lines.specs.Lines.{end_line};

use layout::STORE_WORDS;
use lines::{LINE_BYTES, lay_end};

// Do the next bytes of the answer, from place `at` on, agree with the first `wrote` of `out`?
pub fn agrees(out: &[u8], wrote: usize, answer: &[u8], at: usize) -> bool
    requires { (wrote ≤ length out.now) × (at ≤ length answer.now) }
    ensures { Tells (take wrote (drop at answer.now) ≡ take wrote out.now) result }
{
    answer[at..].starts_with(&out[..wrote])
}

// Is the end line all that is left of the answer from place `at` on?
pub fn agrees_last(
    store: &[u32; STORE_WORDS],
    out: &mut [u8; LINE_BYTES],
    answer: &[u8],
    at: usize,
) -> bool
    requires { at ≤ length answer.now }
    ensures { Tells (answer.now ≡ take at answer.now ++ end_line store.now) result }
{
    let wrote = lay_end(out, store);
    answer[at..] == out[..wrote]
}
