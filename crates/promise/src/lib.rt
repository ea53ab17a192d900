// What is promised of any program whose calls meet their contracts: definitions in specs/, theorems in proofs/, and no code.
#![tactic(auto)]
