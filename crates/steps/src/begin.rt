// The words that a script starts from.
ghost use Rattle.std.specs.Prelude.{◌≡◌};
ghost use Rattle.replies.specs.Replies.{lent};
ghost use Rattle.steps.specs.Steps.{fresh};

use layout::{SCRATCH_WORDS, STORE_WORDS};
use replies::inner::stops::STOP_WORDS;
use setcheck::inner::places::SET_WORDS;

// Makes a fresh store, an empty full-context set and no stop states, over any earlier contents.
// Kept with its parameters: `Room` has it run over its own words.
pub fn start(
    store: &mut [u32; STORE_WORDS],
    set: &mut [u32; SET_WORDS],
    stops: &mut [u32; STOP_WORDS],
    scratch: &mut [u32; SCRATCH_WORDS],
)
    ensures { lent store.new set.new stops.new scratch.new ≡ fresh }
{
    // Neither is refused: these words have the right lengths.
    let _ = store::fresh(store);
    let _ = configs::fresh_set(set, true);
    words::clear(stops);
    words::clear(scratch);
}
