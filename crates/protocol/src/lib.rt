// Why the method is atomic: theorems over a view without messages. specs/ has them all, and no function is needed.
#![tactic(auto)]
