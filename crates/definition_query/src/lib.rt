// The analysis of a sheet's queries.

#![tactic(auto)]

pub mod query;
pub mod snippet;
