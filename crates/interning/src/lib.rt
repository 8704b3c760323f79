// Interning, which is internal, and the one call that needs no more of it: a state placed over a context.
#![tactic(auto)]

pub mod inner;
mod numbered;
mod single;

pub use numbered::Numbered;
pub use single::singleton;
