// Why the verdict on a set is what it is.
ghost use Rattle.std.specs.Prelude.{◌≡◌};
ghost use Rattle.verdicts.specs.Calls.{verdict_left};
ghost use Rattle.reasons.specs.Calls.{why_call};
ghost use Rattle.reasons.specs.Replies.{told};

use crate::answers::Reason;
use crate::inner::walk::reason_of;
use deciding::inner::verdict::MOST_STOPS;
use setcheck::inner::open::open_set;
use words::Refusal;

const ALTS_WORDS: usize = 257;

// What is the reason? The alternatives of a clash are written to 257 words.
pub fn why(
    store: &[u32],
    set: &[u32],
    scratch: &mut [u32],
    stops: &[u32],
    output: &mut [u32],
) -> Result<Reason, Refusal>
    ensures { verdict_left (told result output.new) scratch.new output.new
        ≡ why_call store.now set.now scratch.old stops.now output.old }
{
    if output.len() != ALTS_WORDS {
        return Err(Refusal::WrongLength);
    }
    open_set(store, set, scratch)?;
    if MOST_STOPS < stops.len() {
        words::clear(scratch);
        return Err(Refusal::TooManyStops);
    }
    let reason = reason_of(set, scratch, stops, output);
    words::clear(scratch);
    Ok(reason)
}
