// The demands with the terminal's calls, and the draw task's theorem: see proofs/. There is no function here.
#![tactic(auto)]
