// What a caller holds who lends words: theorems over the calls' definitions. specs/ has them all, and no function is needed.
#![tactic(auto)]
