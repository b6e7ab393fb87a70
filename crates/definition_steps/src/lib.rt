// What the steps of the analysis keep, as its code needs it: see proofs/Laws/.

#![tactic(auto)]
