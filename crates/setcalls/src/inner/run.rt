// A record on the set is run.
ghost use Rattle.format.specs.Answers.{set_call};
ghost use Rattle.setreplies.specs.Replies.Laws.{Answered};
ghost use Rattle.setreplies.specs.Replies.{call_of, lent};

use format::SetRecord;
use lines::LINE_BYTES;
use reasonreplies::inner::why::why;
use replies::inner::stops::STOP_WORDS;
use setreplies::inner::changes::{add, close, new_set};
use verdictreplies::inner::verdict::verdict;

// Runs a call on the set and lays out its reply.
// Kept with its parameters: docs/PROMISES.md names it, and it promises its answer on store and set of any length.
pub fn run_set_record(
    call: SetRecord,
    store: &mut [u32],
    set: &mut [u32],
    stops: &[u32; STOP_WORDS],
    scratch: &mut [u32],
    out: &mut [u8; LINE_BYTES],
) -> usize
    ensures { Answered out.old
        (call_of (lent store.old set.old stops.now scratch.old) (set_call call))
        result out.new (lent store.new set.new stops.now scratch.new) }
{
    // Kept as a match: each kind of record is an arm, and a table would need one list of arguments for all.
    match call {
        SetRecord::NewSet(wildcard) => new_set(set, scratch, wildcard, out),
        SetRecord::Add(config) => add(store, set, scratch, config, out),
        SetRecord::Verdict => verdict(store, set, stops, scratch, out),
        SetRecord::Close => close(store, set, scratch, out),
        SetRecord::Why => why(store, set, stops, scratch, out),
    }
}
