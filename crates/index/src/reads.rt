// The words of the scratch, one at a time, by name.
ghost use Rattle.std.specs.Prelude.{◌≡◌, ◌<◌};
ghost use Rattle.layout.specs.Scratch.{high, link, low, stack_parent, stack_state};
ghost use Rattle.layout.specs.Layout.{most_contexts};
ghost use Rattle.layout.specs.Records.{entry_of};
ghost use Rattle.index.specs.Records.{stack_entries};

use crate::places::{HIGHS, LINKS, LOWS, STACK};
use layout::{Entry, ScratchWords};
use words::{CompactState, ContextId};

// Kept as three: each is one place under its own name, and a constant parameter would only move the name to each call.
// The link from a context to the next older one of its bucket.
pub fn link_of(scratch: &ScratchWords, context: usize) -> u32
    requires { context < most_contexts }
    ensures { result ≡ link scratch.now context }
{
    scratch[LINKS + context]
}

// The lower half of a context's hash.
pub fn low_of(scratch: &ScratchWords, context: usize) -> u32
    requires { context < most_contexts }
    ensures { result ≡ low scratch.now context }
{
    scratch[LOWS + context]
}

// The upper half of a context's hash.
pub fn high_of(scratch: &ScratchWords, context: usize) -> u32
    requires { context < most_contexts }
    ensures { result ≡ high scratch.now context }
{
    scratch[HIGHS + context]
}

// An entry on the stack.
pub fn stack_entry(scratch: &ScratchWords, place: usize) -> Entry
    requires { place < stack_entries }
    ensures { result ≡ entry_of (stack_parent scratch.now place) (stack_state scratch.now place) }
{
    Entry {
        parent: ContextId(scratch[STACK + 2 * place]),
        state: CompactState(scratch[STACK + 2 * place + 1]),
    }
}
