// The doors to the entry queries.
ghost use Rattle.queries.specs.Queries.{entry_count, entry_parent, entry_state, has_empty_path, is_empty, query_call};
ghost use Rattle.answers.specs.Answers.{answer_of, entry_of};
ghost use Rattle.purse.specs.Doors.{Opens};

use answers::{Answer, EntryAnswer, count_answer, entry_answer, truth_answer};
use words::ContextId;

// How many entries has a context?
#[unsafe(no_mangle)]
pub extern "C" fn purse_len(store: &[u32], scratch: &mut [u32], context: u32) -> Answer
    ensures { Opens answer_of (query_call entry_count store.now scratch.old context) result store.now scratch.new }
{
    count_answer(queries::len(store, scratch, ContextId(context)))
}

// Is a context exactly the set of the empty stack?
#[unsafe(no_mangle)]
pub extern "C" fn purse_is_empty(store: &[u32], scratch: &mut [u32], context: u32) -> Answer
    ensures { Opens answer_of (query_call is_empty store.now scratch.old context) result store.now scratch.new }
{
    truth_answer(queries::is_empty(store, scratch, ContextId(context)))
}

// Is the empty stack one of a context's?
#[unsafe(no_mangle)]
pub extern "C" fn purse_has_empty_path(store: &[u32], scratch: &mut [u32], context: u32) -> Answer
    ensures { Opens answer_of (query_call has_empty_path store.now scratch.old context) result store.now scratch.new }
{
    truth_answer(queries::has_empty_path(store, scratch, ContextId(context)))
}

// What is the state of a context's entry at an index?
#[unsafe(no_mangle)]
pub extern "C" fn purse_return_state(
    store: &[u32],
    scratch: &mut [u32],
    context: u32,
    index: u32,
) -> EntryAnswer
    ensures { Opens entry_of (query_call (entry_state index) store.now scratch.old context) result store.now scratch.new }
{
    entry_answer(queries::return_state(store, scratch, ContextId(context), index))
}

// What is the parent of a context's entry at an index?
#[unsafe(no_mangle)]
pub extern "C" fn purse_parent(
    store: &[u32],
    scratch: &mut [u32],
    context: u32,
    index: u32,
) -> EntryAnswer
    ensures { Opens entry_of (query_call (entry_parent index) store.now scratch.old context) result store.now scratch.new }
{
    entry_answer(queries::parent(store, scratch, ContextId(context), index))
}
