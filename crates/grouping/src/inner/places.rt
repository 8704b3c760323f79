// Where a config's first one, the next config of its kind and the marks stand in the scratch: after the chains.
// Kept by no heap: lists by index in lent words, where Rattle has Vec.

pub const LEADERS: usize = 2560;

pub const MEMBERS: usize = 2816;

pub const MARKS: usize = 3072;

pub const MARKS_END: usize = 3328;
