// No code: runs of calls, computed by the definitions.
#![tactic(auto)]
