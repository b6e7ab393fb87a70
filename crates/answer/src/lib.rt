// The rows and the text of an answer, and the whole call, as definitions: see specs/.

#![tactic(auto)]
