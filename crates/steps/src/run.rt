// One step of a script: the record at a place is read and run.
ghost use Rattle.std.specs.Prelude.{◌≡◌, ◌≤◌, length};
ghost use Rattle.lines.specs.Laid.{Wrote};
ghost use Rattle.lines.specs.Lines.{refusal_line};
ghost use Rattle.replies.specs.Replies.{lent, wiped};
ghost use Rattle.steps.specs.Answers.{behind, laid_out, wrote_of};
ghost use Rattle.steps.specs.Steps.{step_of};

use calls::inner::run::run_record;
use format::{Step, decode};
use lines::LINE_BYTES;
use lines::inner::numbers::lay_refusal;
use replies::inner::calls::wipe;
use replies::inner::stops::STOP_WORDS;
use words::Refusal;

// Bytes that a script may have at most.
pub const MOST_BYTES: usize = 32768;

// A step laid out so many bytes, and the script goes on at a place; or it is over.
// Kept: each of the two says what was laid out, so that neither is an Err or a None.
#[derive(Clone, Copy)]
pub enum Ran {
    Next(usize, usize),
    Over(usize),
}

// Lays out that a record is malformed. Such a script is over.
fn refuse(scratch: &mut [u32], out: &mut [u8; LINE_BYTES]) -> usize
    ensures wrote { Wrote out.old 0 (refusal_line 9) result out.new }
    ensures scratch_after { scratch.new ≡ wiped scratch.old }
{
    wipe(scratch);
    lay_refusal(out, Refusal::MalformedRecord)
}

// Runs the record at a place of a script. The reply stands at the start of `out`.
// Kept without `Room`: it takes words of any length, and a wrong length is refused.
pub fn run_step(
    bytes: &[u8],
    at: usize,
    store: &mut [u32],
    set: &mut [u32],
    stops: &mut [u32; STOP_WORDS],
    scratch: &mut [u32],
    out: &mut [u8; LINE_BYTES],
) -> Ran
    ensures as_the_step { behind result out.new (lent store.new set.new stops.new scratch.new)
        ≡ laid_out out.old
        (step_of bytes.now at (lent store.old set.old stops.old scratch.old)) }
    ensures result_in_bounds { wrote_of result ≤ length out.new }
{
    if MOST_BYTES < bytes.len() {
        return Ran::Over(refuse(scratch, out));
    }
    match decode(bytes, at) {
        Step::Found(call, next) => {
            Ran::Next(
                run_record(call, bytes, store, set, stops, scratch, out),
                next,
            )
        }
        Step::End => {
            wipe(scratch);
            Ran::Over(0)
        }
        Step::Malformed => Ran::Over(refuse(scratch, out)),
    }
}
