// The three demands, of every run of the public functions. What a run of them is in specs/, theorems in proofs/; no function.
#![tactic(auto)]
