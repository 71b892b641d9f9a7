// No code: laws over any list of calls, by any domains.
#![tactic(auto)]
