// Theorems on the definitions; no code.
#![tactic(auto)]
