// Runs of calls, one after another in one store: definitions and theorems alone.
#![tactic(auto)]
