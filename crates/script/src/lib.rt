// Whole scripts: a recorded answer is held against what a script gives.
#![tactic(auto)]

mod replay;

pub use replay::replays;
