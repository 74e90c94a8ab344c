// What a run costs, counted from its events: theorems over the engine's definitions. specs/ has them all, and no function is needed.
#![tactic(auto)]
