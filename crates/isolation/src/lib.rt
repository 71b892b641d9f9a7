// No code: demand 3, as definitions in specs/ with their proof.
#![tactic(auto)]
