// The 5,634 words of a store: a fresh one, and the check of one that was lent.
#![tactic(auto)]

pub mod inner;
mod renew;

pub use renew::fresh;
