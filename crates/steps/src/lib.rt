// Steps of a script: a record is run over lent words and answered by a line of bytes.
#![tactic(auto)]

mod begin;
mod room;
mod run;

pub use begin::start;
pub use replies::inner::stops::STOP_WORDS;
pub use room::Room;
pub use run::{MOST_BYTES, Ran, run_step};
pub use setcheck::inner::places::SET_WORDS;
