// The demands on the box, as theorems over the promises of its calls: they stand in proofs/, and there is no code.
#![tactic(auto)]
