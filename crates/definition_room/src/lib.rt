// How many definitions queries record, which query each row lies in, and the room that the queries share out: see proofs/Laws/.

#![tactic(auto)]
