// What a user is promised: theorems in proofs/Laws/, what they speak of in specs/.

#![tactic(auto)]
