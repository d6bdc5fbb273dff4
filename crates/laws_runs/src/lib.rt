// Runs of the model, their traces, and demand 3 told from the trace. Definitions in specs/, theorems in proofs/; no function.
#![tactic(auto)]
