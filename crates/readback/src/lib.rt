// No code: the laws in specs/ tie the numbers that are read to those that are printed.
#![tactic(auto)]
