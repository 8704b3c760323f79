// Enums do not cross the border to C: structs and numbers that stand there for the answers of the calls.
#![tactic(auto, unfolding(crate::specs::Answers::entry_of, crate::specs::SetAnswers::set_answer_of, crate::specs::VerdictAnswers::alt_answer_of, crate::specs::ReasonAnswers::reason_answer_of))]

mod adding;
mod common;
mod figuring;
mod reasoning;
mod stores;
mod structs;

pub use adding::added_answer;
pub use common::{Found, done_number, entry_answer, truth_answer};
pub use figuring::{FiguresAnswer, figures_answer};
pub use reasoning::{ReasonAnswer, reason_answer};
pub use stores::{count_answer, merged_answer, number_answer};
pub use structs::{Answer, CountedAnswer, EntryAnswer};
