// What the lines of a run say: definitions and theorems, no code.
#![tactic(auto)]
