// General facts: searches, tests over ranges, counting, lists. No functions.
#![tactic(auto)]
