// The paper's definitions and its theorems: see specs/ and proofs/. There is no function here.
#![tactic(auto)]
