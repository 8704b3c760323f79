// Config sets: a fresh set, one config more, and a set closed.
#![tactic(auto)]

mod adding;
mod joining;
mod settle;
mod write;

pub use adding::{Added, add};
pub use settle::{close, fresh_set};
