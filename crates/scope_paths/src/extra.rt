// `get_extra_arg`: the last parameter of a call of a built-in that has one parameter more than its arity.

ghost use Rattle.std.specs.Prelude.{◌≡◌, List, ◌*◌, ◌≤◌, ◌<◌, length, unwrap_or};
ghost use Rattle.base.specs.Limits as limits;
ghost use Rattle.scope_walk.specs.Inner.Sheets.{Accepted, expr_count};
ghost use Rattle.scope_paths.specs.Inner.Extra.{end_after, EndAt, CallExtra, ExtraAt};

use crate::builtins::arity_of;
use crate::paths::get_path_string;
use sheet::{Kind, Row};
use sheet_rows::{next_at, row_at};

// How many expressions a chain has, and the row of the last: 0, no row of a sheet, where there is none.
#[derive(Clone, Copy)]
pub struct End {
    pub count: usize,
    pub last: usize,
}

impl End {
    // The same with a row in front.
    fn after(self, row: usize) -> End
        requires { self.count < 2 * limits.most_expressions }
        ensures { result ≡ end_after self row }
    {
        let last = if self.count == 0 { row } else { self.last };
        End {
            count: self.count + 1,
            last,
        }
    }
}

pub fn end_of(tables: &[u16], row: usize) -> End
    requires { Accepted tables.now × (row ≤ expr_count tables.now) }
    ensures { EndAt tables.now row result }
{
    if row == 0 {
        return End { count: 0, last: 0 };
    }
    let next = next_at(tables, row);
    let end = end_of(tables, next);
    end.after(row)
}

fn call_extra(tables: &[u16], w: Row) -> Option<usize>
    requires { Accepted tables.now × (w.first ≤ expr_count tables.now) × (w.second ≤ expr_count tables.now) }
    ensures { CallExtra tables.now w (unwrap_or result 0) }
{
    let path = get_path_string(tables, w.first as usize)?;
    let arity = arity_of(tables, path)?;
    let end = end_of(tables, w.second as usize);
    (arity as usize + 1 == end.count).then_some(end.last)
}

// The row of the extra argument of the expression at a row, or 0: no row, as a sheet has it and the walks take it.
pub fn get_extra_arg(tables: &[u16], row: usize) -> usize
    requires { Accepted tables.now × (row ≤ expr_count tables.now) }
    ensures { ExtraAt tables.now row result }
{
    if row == 0 {
        return 0;
    }
    let w = row_at(tables, row);
    match Kind::from(w.kind) {
        Kind::Call => call_extra(tables, w).unwrap_or(0),
        _ => 0,
    }
}
