// The original's repeats, its inputs and its levels: laws alone, see proofs/Laws/.

#![tactic(auto)]
