// What a config set is, and its words: definitions and theorems alone.
#![tactic(auto)]
