// What a store says: the laws of its view, where a desk changes, of the fresh store, and of every legal box. There is no code.
#![tactic(auto)]
