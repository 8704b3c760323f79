// The doors to the calls on a set's subsets.
ghost use Rattle.std.specs.Prelude.{[]};
ghost use Rattle.verdicts.specs.Calls.{all_subsets_conflict_call, all_subsets_equal_call, conflicting_alt_subsets_call, conflicting_alts_call, single_viable_alt_call, unique_alt_call, verdict_call};
ghost use Rattle.figures.specs.Calls.{figures_call};
ghost use Rattle.reasons.specs.Calls.{why_call};
ghost use Rattle.answers.specs.FiguresAnswers.{figures_answer_of};
ghost use Rattle.answers.specs.ReasonAnswers.{reason_answer_of};
ghost use Rattle.answers.specs.VerdictAnswers.{alt_answer_of, verdict_answer_of, verdict_number_of};
ghost use Rattle.purse.specs.Doors.{OpensVerdict};

use answers::{
    Answer, EntryAnswer, FiguresAnswer, ReasonAnswer, done_number, entry_answer, figures_answer,
    reason_answer, truth_answer,
};

// Which alternative have all configs?
#[unsafe(no_mangle)]
pub extern "C" fn purse_unique_alt(store: &[u32], set: &[u32], scratch: &mut [u32]) -> EntryAnswer
    ensures { OpensVerdict alt_answer_of (unique_alt_call store.now set.now scratch.old) result scratch.new [] }
{
    entry_answer(verdicts::unique_alt(store, set, scratch))
}

// Which alternative is the smallest of every subset?
#[unsafe(no_mangle)]
pub extern "C" fn purse_single_viable_alt(
    store: &[u32],
    set: &[u32],
    scratch: &mut [u32],
) -> EntryAnswer
    ensures { OpensVerdict alt_answer_of (single_viable_alt_call store.now set.now scratch.old) result scratch.new [] }
{
    entry_answer(verdicts::single_viable_alt(store, set, scratch))
}

// Has every subset two or more alternatives?
#[unsafe(no_mangle)]
pub extern "C" fn purse_all_subsets_conflict(
    store: &[u32],
    set: &[u32],
    scratch: &mut [u32],
) -> Answer
    ensures { OpensVerdict verdict_answer_of (all_subsets_conflict_call store.now set.now scratch.old) result scratch.new [] }
{
    truth_answer(verdicts::all_subsets_conflict(store, set, scratch))
}

// Have all subsets the same alternatives?
#[unsafe(no_mangle)]
pub extern "C" fn purse_all_subsets_equal(store: &[u32], set: &[u32], scratch: &mut [u32]) -> Answer
    ensures { OpensVerdict verdict_answer_of (all_subsets_equal_call store.now set.now scratch.old) result scratch.new [] }
{
    truth_answer(verdicts::all_subsets_equal(store, set, scratch))
}

// What is the verdict on the set, with these stop states?
#[unsafe(no_mangle)]
pub extern "C" fn purse_has_sll_conflict_terminating_prediction(
    store: &[u32],
    set: &[u32],
    scratch: &mut [u32],
    stops: &[u32],
) -> Answer
    ensures { OpensVerdict verdict_answer_of (verdict_call store.now set.now scratch.old stops.now) result scratch.new [] }
{
    truth_answer(verdicts::has_sll_conflict_terminating_prediction(store, set, scratch, stops))
}

// Which subsets are there? They are written to 1,025 words.
#[unsafe(no_mangle)]
pub extern "C" fn purse_conflicting_alt_subsets(
    store: &[u32],
    set: &[u32],
    scratch: &mut [u32],
    output: &mut [u32],
) -> u32
    ensures { OpensVerdict verdict_number_of (conflicting_alt_subsets_call store.now set.now scratch.old output.old)
        result scratch.new output.new }
{
    done_number(verdicts::conflicting_alt_subsets(store, set, scratch, output))
}

// Which alternatives are in subsets with two or more? They are written to 257 words.
#[unsafe(no_mangle)]
pub extern "C" fn purse_conflicting_alts(
    store: &[u32],
    set: &[u32],
    scratch: &mut [u32],
    output: &mut [u32],
) -> u32
    ensures { OpensVerdict verdict_number_of (conflicting_alts_call store.now set.now scratch.old output.old)
        result scratch.new output.new }
{
    done_number(verdicts::conflicting_alts(store, set, scratch, output))
}

// How many subsets, which unique and which viable alternative, and what verdict with these stop states?
#[unsafe(no_mangle)]
pub extern "C" fn purse_figures(
    store: &[u32],
    set: &[u32],
    scratch: &mut [u32],
    stops: &[u32],
) -> FiguresAnswer
    ensures { OpensVerdict figures_answer_of (figures_call store.now set.now scratch.old stops.now) result scratch.new [] }
{
    figures_answer(figures::figures(store, set, scratch, stops))
}

// Why is the verdict with these stop states what it is? The alternatives of a clash are written to 257 words.
#[unsafe(no_mangle)]
pub extern "C" fn purse_why(
    store: &[u32],
    set: &[u32],
    scratch: &mut [u32],
    stops: &[u32],
    output: &mut [u32],
) -> ReasonAnswer
    ensures { OpensVerdict reason_answer_of
        (why_call store.now set.now scratch.old stops.now output.old)
        result scratch.new output.new }
{
    reason_answer(reasons::why(store, set, scratch, stops, output))
}
