// The structs that cross the border, and those of a refusal.
// Kept by the C interface: a flag or a number beside the value, where Rattle has Option and Result.
ghost use Rattle.std.specs.Prelude.{◌≡◌};
ghost use Rattle.words.specs.Refusals.{number};
ghost use Rattle.answers.specs.Answers.{counted};

use words::Refusal;

// A refusal's number, 0 where there is none; then the value.
#[repr(C)]
#[derive(Clone, Copy)]
pub struct Answer {
    pub refusal: u32,
    pub value: u32,
}

// A refusal's number, 0 where there is none; then 1 and the value, or 0 where there is no entry.
#[repr(C)]
#[derive(Clone, Copy)]
pub struct EntryAnswer {
    pub refusal: u32,
    pub found: u32,
    pub value: u64,
}

// A refusal's number, 0 where there is none; then the value, how many merges were counted, and how many contexts made.
#[repr(C)]
#[derive(Clone, Copy)]
pub struct CountedAnswer {
    pub refusal: u32,
    pub value: u32,
    pub merges: u32,
    pub made: u32,
}

// A refusal carries its number and nothing else.
pub fn refusal_answer(refusal: Refusal) -> Answer
    ensures { (result.refusal ≡ number refusal) × (result.value ≡ 0) }
{
    Answer {
        refusal: u32::from(refusal),
        value: 0,
    }
}

// The same of an entry.
pub fn refusal_entry(refusal: Refusal) -> EntryAnswer
    ensures { (result.refusal ≡ number refusal) × (result.found ≡ 0) × (result.value ≡ 0) }
{
    EntryAnswer {
        refusal: u32::from(refusal),
        found: 0,
        value: 0,
    }
}

// The same of an answer that counts.
pub fn refusal_counted(refusal: Refusal) -> CountedAnswer
    ensures { result ≡ counted (number refusal) 0 0 0 }
{
    CountedAnswer {
        refusal: u32::from(refusal),
        value: 0,
        merges: 0,
        made: 0,
    }
}
