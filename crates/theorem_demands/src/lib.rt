// Theorems alone: the demands on the library, and the worked examples.
#![tactic(auto)]
