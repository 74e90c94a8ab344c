// The bench sheet: no code, its starred lines are theorems (specs/Sheet.antt). Its other lines are run by crate bench.
#![tactic(auto)]
