// Gathering the variables of a query's statements into its scope.

#![tactic(auto)]

pub mod body;
pub mod local_vars;
pub mod locals;
pub mod statements;
