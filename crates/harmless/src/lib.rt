// Demand 1 of every public call beside the box: theorems over their promises. There is no code.
#![tactic(auto)]
