// The line of a letter and numbers: two, as a context or the end; one, as a refusal; or none.
ghost use Rattle.std.specs.Prelude.{[], ◌++◌, ◌∷◌, ◌+◌, ◌*◌, ◌≤◌, length};
ghost use Rattle.words.specs.Refusals.{number};
ghost use Rattle.lines.specs.Laid.{Wrote};
ghost use Rattle.lines.specs.Lines.{refusal_line, spaced_all};
ghost use Rattle.lines.specs.Spread.{Spread};

use crate::inner::digits::{LINE_BYTES, put_byte, put_spaced};
use words::Refusal;

// Lays numbers, with a space before each.
pub fn put_numbers(out: &mut [u8], at: usize, numbers: &[u32]) -> usize
    requires { at + 11 * length numbers.now ≤ length out.old }
    ensures { Spread out.old at numbers.now result out.new }
{
    let mut next = at;
    for &n in numbers {
        next = put_spaced(out, next, n);
    }
    next
}

// Lays a letter, a few numbers and a line end.
pub fn lay_line(out: &mut [u8; LINE_BYTES], letter: u8, numbers: &[u32]) -> usize
    requires { length numbers.now ≤ 256 }
    ensures { Wrote out.old 0 (letter ∷ spaced_all numbers.now ++ 10 ∷ []) result out.new }
{
    let at = put_byte(out, 0, letter);
    let at = put_numbers(out, at, numbers);
    put_byte(out, at, b'\n')
}

// Lays the line of a refusal.
pub fn lay_refusal(out: &mut [u8; LINE_BYTES], refusal: Refusal) -> usize
    ensures { Wrote out.old 0 (refusal_line (number refusal)) result out.new }
{
    lay_line(out, b'R', &[u32::from(refusal)])
}
