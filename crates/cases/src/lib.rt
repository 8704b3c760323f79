// Proofs by cases, for every crate above: specs/ has lemmas alone.
#![tactic(auto)]
