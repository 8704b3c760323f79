// The doors to the calls that write a set.
ghost use Rattle.std.specs.Prelude.{◌≡◌};
ghost use Rattle.setcheck.specs.Calls.{add_call, close_call, fresh_set_call};
ghost use Rattle.answers.specs.SetAnswers.{set_number_of};
ghost use Rattle.purse.specs.Doors.{OpensSet, OpensSetCounted, by_full_context};
ghost use Rattle.setcheck.specs.Config.{config};

use answers::{CountedAnswer, added_answer, done_number};
use setcheck::AtnConfig;
use words::{Alternative, ContextId, SemanticId};

// Makes the lent words a set without configs: by mode 0 full-context, by any other number not.
#[unsafe(no_mangle)]
pub extern "C" fn purse_fresh_set(set: &mut [u32], mode: u32) -> u32
    ensures { (result ≡ set_number_of (fresh_set_call set.old (by_full_context mode)).0) × (set.new ≡ (fresh_set_call set.old (by_full_context mode)).1) }
{
    done_number(configs::fresh_set(set, mode == 0))
}

// Adds a config, given by its six words in their order.
#[unsafe(no_mangle)]
pub extern "C" fn purse_add(
    store: &mut [u32],
    set: &mut [u32],
    scratch: &mut [u32],
    state: u32,
    alternative: u32,
    context: u32,
    semantic: u32,
    reach: u32,
    provenance: u32,
) -> CountedAnswer
    ensures { OpensSetCounted (add_call store.old set.old scratch.old (config state alternative context semantic reach provenance))
        result store.new set.new scratch.new }
{
    let given = AtnConfig {
        state: state,
        alt: Alternative(alternative),
        context: ContextId(context),
        semantic_context: SemanticId(semantic),
        reaches_into_outer_context: reach,
        semantic_provenance_and_flags: provenance,
    };
    added_answer(configs::add(store, set, scratch, given))
}

// Makes a set read-only.
#[unsafe(no_mangle)]
pub extern "C" fn purse_close(store: &[u32], set: &mut [u32], scratch: &mut [u32]) -> u32
    ensures { OpensSet set_number_of (close_call store.now set.old scratch.old) result store.now set.new scratch.new }
{
    done_number(configs::close(store, set, scratch))
}
