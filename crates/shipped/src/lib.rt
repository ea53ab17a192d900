// What is promised of the functions that ship, over their contracts: definitions in specs/, theorems in proofs/, and no code.
#![tactic(auto)]
