// The subsets of a set's configs, and the answers on them: definitions and theorems alone.
#![tactic(auto)]
