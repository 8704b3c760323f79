// A set made afresh, and a set closed.
ghost use Rattle.std.specs.Prelude.{◌≡◌};
ghost use Rattle.sets.specs.Calls.{close_call, fresh_set_call, set_left};
ghost use Rattle.configs.specs.Replies.{settled};

use setcheck::inner::flags::with_flag;
use setcheck::inner::open::open_set;
use setcheck::inner::places::{FULL_CONTEXT, READ_ONLY, SET_WORDS};
use setcheck::inner::read::flag_word;
use words::Refusal;

// Makes the lent words a set without configs, over any earlier contents. Refused 2.
pub fn fresh_set(set: &mut [u32], full_context: bool) -> Result<(), Refusal>
    ensures { (settled result, set.new) ≡ fresh_set_call set.old full_context }
{
    if set.len() != SET_WORDS {
        return Err(Refusal::WrongLength);
    }
    words::clear(set);
    if full_context {
        set[1] = FULL_CONTEXT;
    }
    Ok(())
}

// Makes the set read-only; a closed set stays closed. Refused 2, 1 or 3, in this order of checking.
pub fn close(store: &[u32], set: &mut [u32], scratch: &mut [u32]) -> Result<(), Refusal>
    ensures { set_left (settled result) store.now set.new scratch.new ≡ close_call store.now set.old scratch.old }
{
    open_set(store, set, scratch)?;
    set[1] = with_flag(flag_word(set), READ_ONLY, 1);
    words::clear(scratch);
    Ok(())
}
