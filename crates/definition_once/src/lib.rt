// The way that analyses each query once, and laws that follow its steps: see specs/Inner/ and proofs/Laws/.

#![tactic(auto)]
