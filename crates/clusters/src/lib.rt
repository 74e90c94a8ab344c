// What the judge's arrays hold, and why a cell without a mark is lawful: definitions and theorems, no code.
#![tactic(auto)]
