// Demand 3: every clause is accounted for; no code.
#![tactic(auto)]
