// Theorems alone: what the check accepts is the chunk tree of EA IFF 85.
#![tactic(auto)]
