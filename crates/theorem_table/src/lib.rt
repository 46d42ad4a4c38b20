// Theorems alone: by its table a file shows the pictures that it shows by their numbers.
#![tactic(auto)]
