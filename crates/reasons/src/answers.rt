// What a question for the reason answers, where it is not refused.
use words::{Alternative, ContextId};

// Every config has stopped; no subset holds two alternatives; a state has only this alternative; or a clash
// in the subset of this state and this context.
#[derive(Clone, Copy)]
pub enum Reason {
    Stop,
    NoClash,
    One(u32, Alternative),
    Clash(u32, ContextId),
}
