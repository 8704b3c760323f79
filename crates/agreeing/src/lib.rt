// Bytes of a recorded answer are held against bytes laid out. All of it is internal: answers are compared by `script`.
#![tactic(auto)]

pub mod inner;
