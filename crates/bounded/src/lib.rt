// No code: the definitions and laws in specs/ serve every loop and every written-out test of the crates above.
#![tactic(auto)]
