// What holds of every schedule, by its definition: definitions and theorems, no code.
#![tactic(auto)]
