// What lawful means. Definitions and theorems only: specs/ has them all, and no function is needed.
#![tactic(auto)]
