// The stop states that a script holds.

// Words of a list of stop states: their number, the states, zeros.
pub const STOP_WORDS: usize = 65;
