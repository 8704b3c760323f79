// Readers that share a store: definitions and theorems alone.
#![tactic(auto)]
