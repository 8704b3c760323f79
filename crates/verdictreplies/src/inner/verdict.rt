// The figures of the set, laid out.
ghost use Rattle.std.specs.Prelude.{◌≡◌, ◌+◌, ◌≤◌, drop, get_or, length, take};
ghost use Rattle.lines.specs.Answers.{none};
ghost use Rattle.deciding.specs.OneAlt.{one_alt};
ghost use Rattle.figures.specs.VerdictsCalls.{summary};
ghost use Rattle.figures.specs.Calls.{figures_call};
ghost use Rattle.figures.specs.Replies.{summary_of};
ghost use Rattle.lines.specs.Laid.{Wrote};
ghost use Rattle.lines.specs.Lines.{alternative_bytes, spaced, verdict_bytes};
ghost use Rattle.replies.specs.Replies.{held_stops, verdict_line_of};
ghost use Rattle.verdictreplies.specs.Figured.{Piece, Told};

use figures::Figures;
use lines::LINE_BYTES;
use lines::inner::digits::{put_byte, put_spaced};
use lines::inner::numbers::lay_refusal;
use replies::inner::stops::STOP_WORDS;
use words::Alternative;

// Lays a space and a number, where there is room for any.
pub fn put_number(out: &mut [u8], at: usize, n: u32) -> usize
    requires { at + 11 ≤ length out.old }
    ensures { Piece out.old at (spaced n) result out.new }
{
    put_spaced(out, at, n)
}

// Lays a space and the sign for none.
fn put_none(out: &mut [u8], at: usize) -> usize
    requires { at + 11 ≤ length out.old }
    ensures { Piece out.old at (alternative_bytes none) result out.new }
{
    let next = put_byte(out, at, b' ');
    put_byte(out, next, b'-')
}

// Lays an alternative, or that there is none: alternative 0 is one.
fn put_alternative(out: &mut [u8], at: usize, found: Option<Alternative>) -> usize
    requires { at + 11 ≤ length out.old }
    ensures { Piece out.old at (alternative_bytes (one_alt found)) result out.new }
{
    match found {
        Some(alternative) => put_number(out, at, alternative.0),
        None => put_none(out, at),
    }
}

// Lays a verdict.
fn put_verdict(out: &mut [u8], at: usize, verdict: bool) -> usize
    requires { at + 11 ≤ length out.old }
    ensures { Piece out.old at (verdict_bytes verdict) result out.new }
{
    put_number(out, at, u32::from(verdict))
}

// Lays the line of all figures.
fn lay_figures(out: &mut [u8; LINE_BYTES], all: Figures) -> usize
    ensures { Wrote out.old 0 (verdict_line_of (summary (summary_of all))) result out.new }
{
    let at = put_byte(out, 0, b'V');
    let at = put_number(out, at, all.subsets);
    let at = put_alternative(out, at, all.unique);
    let at = put_alternative(out, at, all.viable);
    let at = put_verdict(out, at, all.verdict);
    put_byte(out, at, b'\n')
}

// The words that a list holds, whose first word says how many; a number above that of the other words has them all.
pub fn held(list: &[u32]) -> &[u32]
    requires { 1 ≤ length list.now }
    ensures { result.now ≡ take (get_or list.now 0 0) (drop 1 list.now) }
{
    let end = 1 + list[0] as usize;
    &list[1..end.min(list.len())]
}

// Lays out the figures of the set, with these stop states, or the refusal.
pub fn verdict(
    store: &[u32],
    set: &[u32],
    stops: &[u32; STOP_WORDS],
    scratch: &mut [u32],
    out: &mut [u8; LINE_BYTES],
) -> usize
    ensures { Told out.old (figures_call store.now set.now scratch.old (held_stops stops.now))
        result out.new scratch.new }
{
    match figures::figures(store, set, scratch, held(stops)) {
        Ok(all) => lay_figures(out, all),
        Err(refusal) => lay_refusal(out, refusal),
    }
}
