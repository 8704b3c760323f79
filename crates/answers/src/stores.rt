// What stands at the border for the answers of the calls on a store.
ghost use Rattle.std.specs.Prelude.{◌≡◌, []};
ghost use Rattle.interning.specs.Replies.{numbered};
ghost use Rattle.queries.specs.Answers.{counted};
ghost use Rattle.contexts.specs.Replies.{merged};
ghost use Rattle.answers.specs.Answers.{answer_of, counted_of};

use crate::structs::{Answer, CountedAnswer, refusal_answer, refusal_counted};
use contexts::Merged;
use interning::Numbered;
use words::Refusal;

// The answer to a merge: a context's number, after so many merges, with so many contexts made.
pub fn merged_answer(answer: Result<Merged, Refusal>) -> CountedAnswer
    ensures { result ≡ counted_of (merged answer [] []) }
{
    match answer {
        Ok(merged) => CountedAnswer {
            refusal: 0,
            value: merged.context.0,
            merges: merged.tally.merges,
            made: merged.tally.made,
        },
        Err(refusal) => refusal_counted(refusal),
    }
}

// The answer with a context's number, and 1 where it was made.
pub fn number_answer(answer: Result<Numbered, Refusal>) -> CountedAnswer
    ensures { result ≡ counted_of (numbered answer [] []) }
{
    match answer {
        Ok(numbered) => CountedAnswer {
            refusal: 0,
            value: numbered.context.0,
            merges: 0,
            made: numbered.made,
        },
        Err(refusal) => refusal_counted(refusal),
    }
}

// Kept beside `truth_answer`: the contracts name two definitions, and a function generic over both would name both.
// The answer with a count.
pub fn count_answer(answer: Result<u32, Refusal>) -> Answer
    ensures { result ≡ answer_of (counted answer) }
{
    match answer {
        Ok(n) => Answer {
            refusal: 0,
            value: n,
        },
        Err(refusal) => refusal_answer(refusal),
    }
}
