// Proofs by hand: what the walks of a function's MIR share, whatever the function does. There is no code here, and no statement: the laws stand in
// proofs/. No proof of this repository is by hand today.
#![tactic(auto)]
