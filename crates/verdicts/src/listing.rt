// The subsets and the conflicting alternatives, written into lent words.
ghost use Rattle.std.specs.Prelude.{◌≡◌};
ghost use Rattle.verdicts.specs.Calls.{conflicting_alt_subsets_call, conflicting_alts_call, verdict_left};
ghost use Rattle.verdicts.specs.Replies.{wrote};

use grouping::inner::lead::lead_all;
use grouping::inner::marks::{Picks, mark_all};
use grouping::inner::traits::Alike;
use outputs::inner::alts::write_alts;
use outputs::inner::subsets::write_groups;
use setcheck::inner::open::open_set;
use words::Refusal;

const SUBSETS_WORDS: usize = 1025;

const ALTS_WORDS: usize = 257;

// Which subsets are there? They are written to 1,025 words.
pub fn conflicting_alt_subsets(
    store: &[u32],
    set: &[u32],
    scratch: &mut [u32],
    output: &mut [u32],
) -> Result<(), Refusal>
    ensures { verdict_left (wrote result) scratch.new output.new
        ≡ conflicting_alt_subsets_call store.now set.now scratch.old output.old }
{
    if output.len() != SUBSETS_WORDS {
        return Err(Refusal::WrongLength);
    }
    open_set(store, set, scratch)?;
    let subsets = lead_all(set, scratch, Alike::Place);
    write_groups(set, scratch, output, subsets);
    words::clear(scratch);
    Ok(())
}

// Which alternatives are in subsets with two or more? They are written to 257 words.
pub fn conflicting_alts(
    store: &[u32],
    set: &[u32],
    scratch: &mut [u32],
    output: &mut [u32],
) -> Result<(), Refusal>
    ensures { verdict_left (wrote result) scratch.new output.new
        ≡ conflicting_alts_call store.now set.now scratch.old output.old }
{
    if output.len() != ALTS_WORDS {
        return Err(Refusal::WrongLength);
    }
    open_set(store, set, scratch)?;
    let _ = lead_all(set, scratch, Alike::Place);
    mark_all(set, scratch, Picks::Rivals);
    write_alts(set, scratch, output);
    words::clear(scratch);
    Ok(())
}
