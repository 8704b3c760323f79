// Definitions and laws only: specs/ says what a finite set of stacks is and how two are merged.
#![tactic(auto)]
