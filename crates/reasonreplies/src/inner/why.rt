// Why the verdict is what it is, laid out.
ghost use Rattle.std.specs.Prelude.{Ok, drop, get_or, take};
ghost use Rattle.lines.specs.LayoutLayout.{blank};
ghost use Rattle.lines.specs.Reason.{clash, one};
ghost use Rattle.reasons.specs.Outputs.{alts_length};
ghost use Rattle.reasons.specs.Calls.{why_call};
ghost use Rattle.reasons.specs.Replies.{told};
ghost use Rattle.lines.specs.Laid.{Wrote};
ghost use Rattle.lines.specs.Lines.{reason_line};
ghost use Rattle.verdictreplies.specs.Replies.{held_stops, verdict_line_of};
ghost use Rattle.verdictreplies.specs.Figured.{Told};

use crate::inner::pieces::put_bytes;
use lines::LINE_BYTES;
use lines::inner::digits::put_byte;
use lines::inner::numbers::{lay_refusal, put_numbers};
use reasons::Reason;
use replies::inner::stops::STOP_WORDS;
use verdictreplies::inner::verdict::{held, put_number};

// Words of a list of alternatives: their number, then these.
const ALTS_WORDS: usize = 257;

// Lays the line of a state that has only one alternative.
fn lay_lone(out: &mut [u8; LINE_BYTES], state: u32, alternative: u32) -> usize
    ensures { Wrote out.old 0 (reason_line (one state alternative)) result out.new }
{
    let at = put_bytes(out, 0, b"W one");
    let at = put_number(out, at, state);
    let at = put_number(out, at, alternative);
    put_byte(out, at, b'\n')
}

// Lays the line of a clash, whose alternatives stand in these words.
fn lay_clash(
    out: &mut [u8; LINE_BYTES],
    state: u32,
    context: u32,
    alts: &[u32; ALTS_WORDS],
) -> usize
    ensures { Wrote out.old 0
        (reason_line (clash state context (take (get_or alts.now 0 0) (drop 1 alts.now)))) result out.new }
{
    let at = put_bytes(out, 0, b"W clash");
    let at = put_number(out, at, state);
    let at = put_number(out, at, context);
    let at = put_numbers(out, at, held(alts));
    put_byte(out, at, b'\n')
}

// Lays the line of a reason.
fn lay_reason(out: &mut [u8; LINE_BYTES], reason: Reason, alts: &[u32; ALTS_WORDS]) -> usize
    ensures { Wrote out.old 0 (verdict_line_of (told (Ok reason) alts.now)) result out.new }
{
    match reason {
        Reason::Stop => put_bytes(out, 0, b"W stop\n"),
        Reason::NoClash => put_bytes(out, 0, b"W none\n"),
        Reason::One(state, alternative) => lay_lone(out, state, alternative.0),
        Reason::Clash(state, context) => lay_clash(out, state, context.0, alts),
    }
}

// Lays out why the verdict on the set is what it is, with these stop states, or the refusal.
pub fn why(
    store: &[u32],
    set: &[u32],
    stops: &[u32; STOP_WORDS],
    scratch: &mut [u32],
    out: &mut [u8; LINE_BYTES],
) -> usize
    ensures { Told out.old
        (why_call store.now set.now scratch.old (held_stops stops.now) (blank alts_length))
        result out.new scratch.new }
{
    let mut alts = [0u32; ALTS_WORDS];
    match reasons::why(store, set, scratch, held(stops), &mut alts) {
        Ok(reason) => lay_reason(out, reason, &alts),
        Err(refusal) => lay_refusal(out, refusal),
    }
}
