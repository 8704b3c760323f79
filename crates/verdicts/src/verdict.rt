// The verdict: does the set settle which alternative is taken?
ghost use Rattle.std.specs.Prelude.{◌≡◌, []};
ghost use Rattle.verdicts.specs.Calls.{verdict_call, verdict_left};
ghost use Rattle.verdicts.specs.Replies.{decided};

use deciding::inner::verdict::{MOST_STOPS, decide};
use setcheck::inner::open::open_set;
use words::Refusal;

// What is the verdict on the set, with these stop states?
pub fn has_sll_conflict_terminating_prediction(
    store: &[u32],
    set: &[u32],
    scratch: &mut [u32],
    stops: &[u32],
) -> Result<bool, Refusal>
    ensures { verdict_left (decided result) scratch.new []
        ≡ verdict_call store.now set.now scratch.old stops.now }
{
    open_set(store, set, scratch)?;
    if MOST_STOPS < stops.len() {
        words::clear(scratch);
        return Err(Refusal::TooManyStops);
    }
    let yes = decide(set, scratch, stops);
    words::clear(scratch);
    Ok(yes)
}
