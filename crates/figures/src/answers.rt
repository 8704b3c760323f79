// What the call answers, where it is not refused.
use words::Alternative;

// The number of subsets, the alternative of every config, the smallest of every subset, the verdict.
#[derive(Clone, Copy)]
pub struct Figures {
    pub subsets: u32,
    pub unique: Option<Alternative>,
    pub viable: Option<Alternative>,
    pub verdict: bool,
}
