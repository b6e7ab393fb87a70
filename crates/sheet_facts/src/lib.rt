// What holds of a sheet that has no row at fault: see specs/Inner/ and proofs/Laws/.

#![tactic(auto)]
