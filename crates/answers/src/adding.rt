// What stands at the border for an added config.
ghost use Rattle.std.specs.Prelude.{[], ◌≡◌};
ghost use Rattle.configs.specs.Replies.{added_left};
ghost use Rattle.answers.specs.SetAnswers.{set_counted_of};

use crate::structs::{CountedAnswer, refusal_counted};
use configs::Added;
use words::Refusal;

// The answer to an added config: 1 inserted, 0 merged, after so many merges, with so many contexts made.
pub fn added_answer(answer: Result<Added, Refusal>) -> CountedAnswer
    ensures { result ≡ set_counted_of (added_left answer [] [] []) }
{
    match answer {
        Ok(Added::Inserted) => CountedAnswer {
            refusal: 0,
            value: 1,
            merges: 0,
            made: 0,
        },
        Ok(Added::Merged(tally)) => CountedAnswer {
            refusal: 0,
            value: 0,
            merges: tally.merges,
            made: tally.made,
        },
        Err(refusal) => refusal_counted(refusal),
    }
}
