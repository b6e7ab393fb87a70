// What an expression uses and what a query records, as definitions: see specs/.

#![tactic(auto)]
