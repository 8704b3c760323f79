// What is promised, in one place: theorems alone.
#![tactic(auto)]
