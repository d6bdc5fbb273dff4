// Words and kernels: which words a kernel has. Laws in proofs/; no function.
#![tactic(auto)]
