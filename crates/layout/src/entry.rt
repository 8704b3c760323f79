// An entry of a context.
use words::{CompactState, ContextId};

// A return state, and the context beneath it.
#[derive(Clone, Copy, PartialEq, Eq)]
pub struct Entry {
    pub parent: ContextId,
    pub state: CompactState,
}
