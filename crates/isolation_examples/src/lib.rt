// No code: runs that meet every premise of demand 3, and for each premise a pair of runs without it.
#![tactic(auto)]
