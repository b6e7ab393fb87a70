// A statement that recorded nothing gets a definition of the empty name.

ghost use Rattle.std.specs.Prelude.{◌/◌, ◌≤◌, length};
ghost use Rattle.names_width.specs.Inner.Widths.{row_words};
ghost use Rattle.definition_record.specs.Inner.Front.{FitsFront};
ghost use Rattle.definition_record.specs.Inner.Least.{Looked, LeastOne};

use crate::record::record_one;
use definition_state::Progress;
use names::Names;
use names_width::Width;
use order_rows::Rows;

// Is a row from `first` on, of `count` in all, one of the statement?
fn has_row(statement: usize, first: usize, count: usize, work: &[u64], width: Width) -> bool
    requires { count ≤ length work.now / row_words width }
    ensures { Looked (row_words width) statement work.now first count result }
{
    let rows = Rows { width, words: work };
    for j in first..count {
        if rows.statement(j) == statement {
            return true;
        }
    }
    false
}

// The rows from `first` on are what the statement recorded, if it did.
pub fn at_least_one(statement: usize, first: usize, p: Progress, work: &mut [u64]) -> Progress
    requires { FitsFront p work.old 1 }
    ensures { LeastOne statement first p work.old result work.new }
{
    let count = p.count;
    let width = p.width;
    if has_row(statement, first, count, work, width) {
        return p;
    }
    let none = Names::empty();
    record_one(statement, none, p, work)
}
