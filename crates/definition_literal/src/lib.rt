// What the analysis of a literal is made of, besides its comprehensions.

#![tactic(auto)]

pub mod body;
pub mod context;
pub mod extra;
pub mod pairs;
pub mod some;
pub mod used_names;
