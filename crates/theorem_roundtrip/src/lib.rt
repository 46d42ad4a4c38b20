// Theorems alone: what the writer writes reads back as the same picture.
#![tactic(auto)]
