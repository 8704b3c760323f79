// Leaves that everything above cites: the names of the border, the refusals, the interner's hash and
// its multiplication, work on lent words, and the provenance word.
#![tactic(auto)]

mod hash;
mod lent;
mod multiply;
mod names;
mod provenance;
mod refusals;

pub use hash::{empty_hash, hash_words, mix, singleton_hash};
pub use lent::{all_zero, clear, clear_range, copy_range};
pub use multiply::wrapping_mul;
pub use names::{
    Alternative, COMPACT_EMPTY_RETURN_STATE, CompactState, ContextId, EMPTY_RETURN_STATE,
    ReturnState, SemanticId,
};
pub use provenance::{merge_marks, provenance_id, provenance_mark};
pub use refusals::Refusal;
