// The four things of the border that are never taken for one another, and the stored form of a
// return state.
ghost use Rattle.std.specs.Prelude.{◌≡◌};
ghost use Rattle.words.specs.Compact.{compacted, expanded};

use crate::refusals::Refusal;

// The number of a context of a store.
#[repr(C)]
#[derive(Clone, Copy, Debug, PartialEq, Eq)]
pub struct ContextId(pub u32);

// A return state as callers give and get it; the largest u64 is the empty mark.
#[derive(Clone, Copy, Debug, PartialEq, Eq)]
pub struct ReturnState(pub u64);

// The number of an alternative.
#[repr(C)]
#[derive(Clone, Copy, Debug, PartialEq, Eq)]
pub struct Alternative(pub u32);

// The number of a semantic context; 0 is none.
#[repr(C)]
#[derive(Clone, Copy, Debug, PartialEq, Eq)]
pub struct SemanticId(pub u32);

// A return state as a store holds it; the largest u32 is the empty mark `$`.
#[derive(Clone, Copy, Debug, PartialEq, Eq)]
pub struct CompactState(pub u32);

// The empty mark at the border.
pub const EMPTY_RETURN_STATE: u64 = 18446744073709551615;

// The empty mark as stored.
pub const COMPACT_EMPTY_RETURN_STATE: u32 = 4294967295;

// The largest state that a store can hold.
const LARGEST_STATE: u64 = 4294967294;

// A border state in its stored form, where it has one.
impl TryFrom<ReturnState> for CompactState {
    type Error = Refusal;

    ghost try_from_gives = { λ state held. held ≡ compacted state.0 };

    fn try_from(state: ReturnState) -> Result<CompactState, Refusal> {
        let given = state.0;
        if given == EMPTY_RETURN_STATE {
            return Ok(CompactState(COMPACT_EMPTY_RETURN_STATE));
        }
        if given <= LARGEST_STATE {
            return Ok(CompactState(given as u32));
        }
        Err(Refusal::StateOutOfRange)
    }
}

// A stored state as the border shows it.
impl From<CompactState> for ReturnState {
    ghost from_gives = { λ state shown. shown.0 ≡ expanded state.0 };

    fn from(state: CompactState) -> ReturnState {
        let held = state.0;
        if held == COMPACT_EMPTY_RETURN_STATE {
            return ReturnState(EMPTY_RETURN_STATE);
        }
        ReturnState(u64::from(held))
    }
}
