// What comprehensions take from the query that they stand in, once their own queries are analysed.

#![tactic(auto)]

pub mod after;
pub mod list;
pub mod own;
pub mod pending;
pub mod taken;
pub mod used;
