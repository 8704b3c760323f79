// Definitions and laws only: specs/ says which merges of a call count, which results are kept, and what is refused first.
#![tactic(auto)]
