// Expressions as trees, scopes, and gathering, as definitions: see specs/.

#![tactic(auto)]
