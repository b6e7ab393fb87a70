// What the parts of a statement have in common.

use names::Names;

// The statement's number, the row of its modifiers' chain or 0 where they have no comprehension, the names that they use, and the levels
// left for nested queries.
#[derive(Clone, Copy)]
pub struct Context {
    pub statement: usize,
    pub mods: usize,
    pub names: Names,
    pub levels: usize,
}
