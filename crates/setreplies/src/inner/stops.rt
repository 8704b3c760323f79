// The stop states of a script: their number, the states, zeros.
ghost use Rattle.std.specs.Prelude.{◌≡◌, ◌+◌, ◌*◌, ◌≤◌, length};
ghost use Rattle.replies.specs.Calls.{most_stops};
ghost use Rattle.format.specs.Bytes.{words_at};
ghost use Rattle.lines.specs.Laid.{Wrote};
ghost use Rattle.replies.specs.Replies.{stop_words, stops_call};

use deciding::inner::verdict::MOST_STOPS;
use format::inner::bytes::u32_at;
use lines::LINE_BYTES;
use lines::inner::numbers::{lay_line, lay_refusal};
use replies::inner::stops::STOP_WORDS;
use words::Refusal;

// Holds `count` states that stand in a script's bytes from `at` on.
fn fill(stops: &mut [u32; STOP_WORDS], bytes: &[u8], at: usize, count: usize)
    requires { (at + 4 * count ≤ length bytes.now) × (count ≤ most_stops) }
    ensures { stops.new ≡ stop_words (words_at bytes.now at count) }
{
    words::clear(stops);
    stops[0] = count as u32;
    for i in 0..count {
        stops[1 + i] = u32_at(bytes, at + 4 * i);
    }
}

// Replaces the stop states by `count` others; more than 64 are refused, and the old ones stay.
pub fn hold(
    stops: &mut [u32; STOP_WORDS],
    bytes: &[u8],
    at: usize,
    count: usize,
    out: &mut [u8; LINE_BYTES],
) -> usize
    requires { at + 4 * count ≤ length bytes.now }
    ensures { Wrote out.old 0 (stops_call stops.old (words_at bytes.now at count)).0 result out.new
        × (stops.new ≡ (stops_call stops.old (words_at bytes.now at count)).1) }
{
    if MOST_STOPS < count {
        return lay_refusal(out, Refusal::TooManyStops);
    }
    fill(stops, bytes, at, count);
    lay_line(out, b'S', &[count as u32])
}
