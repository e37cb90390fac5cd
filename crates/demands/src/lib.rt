// The demands as theorems: see proofs/. There is no function here.
#![tactic(auto)]
