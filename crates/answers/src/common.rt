// What stands at the border for answers that several calls give: done, yes or no, an entry or none.
ghost use Rattle.std.specs.Prelude.{◌≡◌, ℕ};
ghost use Rattle.store.specs.Renewed.{renewed};
ghost use Rattle.configs.specs.Replies.{settled};
ghost use Rattle.queries.specs.Answers.{decided};
ghost use Rattle.verdicts.specs.Replies.{decided as judged, wrote};
ghost use Rattle.answers.specs.Answers.{answer_of, number_of};
ghost use Rattle.answers.specs.SetAnswers.{set_number_of};
ghost use Rattle.answers.specs.VerdictAnswers.{verdict_answer_of, verdict_number_of};
ghost use Rattle.answers.specs.Entries.{entry_answer_of};

use crate::structs::{Answer, EntryAnswer, refusal_answer, refusal_entry};
use words::{Alternative, ContextId, Refusal, ReturnState};

// The number for a store or a set made afresh, a set closed, or words written: 0 where that was done.
pub fn done_number(answer: Result<(), Refusal>) -> u32
    ensures fresh { result ≡ number_of (renewed answer) }
    ensures settled { result ≡ set_number_of (settled answer) }
    ensures written { result ≡ verdict_number_of (wrote answer) }
{
    match answer {
        Ok(()) => 0,
        Err(refusal) => u32::from(refusal),
    }
}

// The answer to a question, on a store or on a set: 1 for yes, 0 for no.
pub fn truth_answer(answer: Result<bool, Refusal>) -> Answer
    ensures asked { result ≡ answer_of (decided answer) }
    ensures set { result ≡ verdict_answer_of (judged answer) }
{
    match answer {
        Ok(yes) => Answer {
            refusal: 0,
            value: u32::from(yes),
        },
        Err(refusal) => refusal_answer(refusal),
    }
}

// What is found is shown as a word.
pub trait Found: Copy {
    ghost word: { Self → ℕ };

    fn word(self) -> u64
        ensures { result ≡ word self };
}

impl Found for ContextId {
    ghost word = { λ c. c.0 };

    fn word(self) -> u64 {
        u64::from(self.0)
    }
}

impl Found for ReturnState {
    ghost word = { λ s. s.0 };

    fn word(self) -> u64 {
        self.0
    }
}

impl Found for Alternative {
    ghost word = { λ a. a.0 };

    fn word(self) -> u64 {
        u64::from(self.0)
    }
}

// The answer with what was found, or that there is none.
pub fn entry_answer<T: Found>(answer: Result<Option<T>, Refusal>) -> EntryAnswer
    ensures { result ≡ entry_answer_of T.word answer }
{
    match answer {
        Ok(Some(found)) => EntryAnswer {
            refusal: 0,
            found: 1,
            value: found.word(),
        },
        Ok(None) => EntryAnswer {
            refusal: 0,
            found: 0,
            value: 0,
        },
        Err(refusal) => refusal_entry(refusal),
    }
}
