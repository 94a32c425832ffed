// Random events, and the answers of the second program: the rules give the same, by computation in the prover. There is no code.
#![tactic(auto)]
