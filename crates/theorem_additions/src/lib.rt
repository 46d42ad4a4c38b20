// Theorems alone: what a later writer may add to a file, and that every picture answers as before.
#![tactic(auto)]
