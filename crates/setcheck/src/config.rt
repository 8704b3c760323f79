// A config as callers give it.
use words::{Alternative, ContextId, SemanticId};

#[repr(C)]
#[derive(Clone, Copy)]
pub struct AtnConfig {
    pub state: u32,
    pub alt: Alternative,
    pub context: ContextId,
    pub semantic_context: SemanticId,
    pub reaches_into_outer_context: u32,
    pub semantic_provenance_and_flags: u32,
}
