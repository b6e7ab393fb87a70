// The walks that gather the variables of an expression: patterns, inputs, loops.

#![tactic(auto)]

pub mod assigned;
pub mod each;
pub mod input;
pub mod loops;
pub mod vars;
