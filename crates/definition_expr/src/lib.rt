// What the uses of expressions do to the analysis of a query.

#![tactic(auto)]

pub mod mods;
pub mod vars;

ghost use Rattle.std.specs.Prelude.{◌≡◌, cond};
ghost use Rattle.definition_expr.specs.Inner.ComprRows.{joined_row, joining};

use definition_state::Progress;
use names::Names;

// The analysis, the names used, and the row whose comprehensions are to be analysed: 0 where there are none, as a sheet has it and the walks
// take it.
#[derive(Clone, Copy)]
pub struct Using {
    pub progress: Progress,
    pub names: Names,
    pub comprs: usize,
}

impl Using {
    // The comprehensions are those of the chain from a row on, where there are any or `first`, its first expression, has some.
    pub(crate) fn after(self, first: usize, row: usize) -> Using
        ensures { result ≡ joining self first row }
    {
        Using {
            comprs: joined_row(first, self.comprs, row),
            ..self
        }
    }
}

// 0 where both rows are.
fn joined_row(first: usize, others: usize, row: usize) -> usize
    ensures { result ≡ joined_row first others row }
{
    if first != 0 {
        return row;
    }
    if others != 0 {
        return row;
    }
    0
}

// The row, if there are comprehensions.
pub(crate) fn compr_row(comprs: bool, row: usize) -> usize
    ensures { result ≡ cond comprs row 0 }
{
    if comprs {
        return row;
    }
    0
}
