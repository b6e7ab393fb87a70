// The path of a called function (`get_path_string`), the built-ins that have it, and the extra argument of a call.

#![tactic(auto)]

pub mod builtins;
pub mod extra;
pub mod paths;
