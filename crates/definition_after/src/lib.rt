// What is done once the nested queries of a step are analysed: the names that an expression uses, the names that a side assigns, and the end of
// a query.

#![tactic(auto)]

pub mod assign;
pub mod finish;
pub mod used_by;
