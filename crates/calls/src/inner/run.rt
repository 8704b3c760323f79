// A record is run.
ghost use Rattle.format.specs.Answers.{call_in};
ghost use Rattle.replies.specs.Replies.Laws.{Answered};
ghost use Rattle.replies.specs.Replies.{call_of, lent};
ghost use Rattle.calls.specs.Called.{Stands};

use format::Record;
use lines::LINE_BYTES;
use replies::inner::calls::{merge, show, singleton, wipe};
use replies::inner::stops::STOP_WORDS;
use setcalls::inner::run::run_set_record;
use setreplies::inner::stops::hold;

// Runs a record's call and lays out its reply.
// Kept with its parameters: docs/PROMISES.md names it, and it promises its answer on store and set of any length.
pub fn run_record(
    call: Record,
    bytes: &[u8],
    store: &mut [u32],
    set: &mut [u32],
    stops: &mut [u32; STOP_WORDS],
    scratch: &mut [u32],
    out: &mut [u8; LINE_BYTES],
) -> usize
    requires { Stands bytes.now call }
    ensures { Answered out.old
        (call_of (lent store.old set.old stops.old scratch.old) (call_in bytes.now call))
        result out.new (lent store.new set.new stops.new scratch.new) }
{
    // Kept as a match: each kind of record is an arm, and a table would need one list of arguments for all.
    match call {
        Record::Singleton(parent, state) => singleton(store, scratch, parent, state, out),
        Record::Merge(left, right, wildcard) => merge(store, scratch, left, right, wildcard, out),
        Record::Show(context) => show(store, scratch, context, out),
        Record::Stops(at, count) => {
            wipe(scratch);
            hold(stops, bytes, at, count, out)
        }
        Record::OnSet(call) => run_set_record(call, store, set, stops, scratch, out),
    }
}
