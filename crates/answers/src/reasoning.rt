// What stands at the border for the reason of a verdict.
ghost use Rattle.std.specs.Prelude.{◌≡◌, List, ℕ};
ghost use Rattle.reasons.specs.Replies.{told};
ghost use Rattle.answers.specs.ReasonAnswers.{reason_answer_of, reason_fields};

use reasons::Reason;
use words::Refusal;

// A refusal's number, 0 where there is none; then which reason, 1 to 4 in the order in which they are tried, and what it
// names of a state, its one alternative, and the context of a clash, 0 where it names none. Kept by the C interface: numbers.
#[repr(C)]
#[derive(Clone, Copy)]
pub struct ReasonAnswer {
    pub refusal: u32,
    pub reason: u32,
    pub state: u32,
    pub alternative: u32,
    pub context: u32,
}

// An answer from its fields.
fn reason_fields(
    refusal: u32,
    reason: u32,
    state: u32,
    alternative: u32,
    context: u32,
) -> ReasonAnswer
    ensures { result ≡ reason_fields refusal reason state alternative context }
{
    ReasonAnswer {
        refusal,
        reason,
        state,
        alternative,
        context,
    }
}

// The answer with the reason; the alternatives of a clash stand in the output o.
pub fn reason_answer(answer: Result<Reason, Refusal>) -> ReasonAnswer
    ensures { (o : List ℕ) → result ≡ reason_answer_of (told answer o) }
{
    match answer {
        Ok(Reason::Stop) => reason_fields(0, 1, 0, 0, 0),
        Ok(Reason::NoClash) => reason_fields(0, 2, 0, 0, 0),
        Ok(Reason::One(state, alternative)) => reason_fields(0, 3, state, alternative.0, 0),
        Ok(Reason::Clash(state, context)) => reason_fields(0, 4, state, 0, context.0),
        Err(refusal) => reason_fields(u32::from(refusal), 0, 0, 0, 0),
    }
}
