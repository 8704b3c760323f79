// The 1,538 words of a config set: a config at a time, and the check of a set that was lent.
#![tactic(auto)]

mod config;
pub mod inner;

pub use config::AtnConfig;
