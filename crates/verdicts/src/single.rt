// One alternative, or none: of every config, or the smallest of every subset. Alternative 0 is one.
ghost use Rattle.std.specs.Prelude.{◌≡◌, []};
ghost use Rattle.verdicts.specs.Calls.{single_viable_alt_call, unique_alt_call, verdict_left};
ghost use Rattle.verdicts.specs.Replies.{alt_found};

use deciding::inner::single::{common_alt, viable_alt};
use setcheck::inner::open::open_set;
use words::{Alternative, Refusal};

// Which alternative have all configs?
pub fn unique_alt(
    store: &[u32],
    set: &[u32],
    scratch: &mut [u32],
) -> Result<Option<Alternative>, Refusal>
    ensures { verdict_left (alt_found result) scratch.new []
        ≡ unique_alt_call store.now set.now scratch.old }
{
    open_set(store, set, scratch)?;
    words::clear(scratch);
    Ok(common_alt(set))
}

// Which alternative is the smallest of every subset?
pub fn single_viable_alt(
    store: &[u32],
    set: &[u32],
    scratch: &mut [u32],
) -> Result<Option<Alternative>, Refusal>
    ensures { verdict_left (alt_found result) scratch.new []
        ≡ single_viable_alt_call store.now set.now scratch.old }
{
    open_set(store, set, scratch)?;
    let one = viable_alt(set, scratch);
    words::clear(scratch);
    Ok(one)
}
