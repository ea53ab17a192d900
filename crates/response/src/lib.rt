// The theorem about waiting stands in specs/ and proofs/: an accepted table keeps its deadlines. It has no code.
#![tactic(auto)]
