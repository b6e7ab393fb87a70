// What the functions of query analysis ask and do, and the laws that close their proofs: see specs/Inner/ and proofs/Laws/.

#![tactic(auto)]
