// What stands at the border for all figures of a set.
ghost use Rattle.std.specs.Prelude.{◌≡◌};
ghost use Rattle.deciding.specs.OneAlt.{one_alt};
ghost use Rattle.verdicts.specs.Calls.{alternative};
ghost use Rattle.figures.specs.Replies.{told};
ghost use Rattle.answers.specs.FiguresAnswers.{figures_answer_of};
ghost use Rattle.answers.specs.VerdictAnswers.{alt_answer_of};

use figures::Figures;
use words::{Alternative, Refusal};

// A refusal's number, 0 where there is none; then the number of subsets, 1 and the unique alternative or 0
// where there is none, the same of the viable one, and 1 for yes as the verdict. Kept by the C interface: flags and numbers.
#[repr(C)]
#[derive(Clone, Copy)]
pub struct FiguresAnswer {
    pub refusal: u32,
    pub subsets: u32,
    pub has_unique: u32,
    pub unique: u32,
    pub has_viable: u32,
    pub viable: u32,
    pub verdict: u32,
}

// The alternative, or 0.
fn alternative_word(one: Option<Alternative>) -> u32
    ensures { result ≡ (alt_answer_of (alternative (one_alt one))).value }
{
    match one {
        Some(alternative) => alternative.0,
        None => 0,
    }
}

// The answer with all figures.
pub fn figures_answer(answer: Result<Figures, Refusal>) -> FiguresAnswer
    ensures { result ≡ figures_answer_of (told answer) }
{
    match answer {
        Ok(all) => {
            let unique = all.unique;
            let viable = all.viable;
            FiguresAnswer {
                refusal: 0,
                subsets: all.subsets,
                has_unique: u32::from(unique.is_some()),
                unique: alternative_word(unique),
                has_viable: u32::from(viable.is_some()),
                viable: alternative_word(viable),
                verdict: u32::from(all.verdict),
            }
        }
        Err(refusal) => FiguresAnswer {
            refusal: u32::from(refusal),
            subsets: 0,
            has_unique: 0,
            unique: 0,
            has_viable: 0,
            viable: 0,
            verdict: 0,
        },
    }
}
