// How often and by what each row of a sheet is named, and the query that encloses it, as a mark a row in lent memory.

#![tactic(auto)]

mod homes;
mod mark;
mod named;
mod rows;

ghost use Rattle.std.specs.Prelude.{◌≤◌, length};
ghost use Rattle.base.specs.Inner.Sizes as sizes;
ghost use Rattle.base.specs.Limits as limits;
ghost use Rattle.sheet.specs.Inner.Records.{Within};
ghost use Rattle.sheet.specs.Naming.{expr_row, namings};
ghost use Rattle.sheet_marks.specs.Inner.Homes.{SettledHomes};
ghost use Rattle.sheet.specs.Inner.Rows.{in_tables};

use crate::homes::settle;
use crate::rows::{clear, name_exprs, name_queries, name_statements};
pub use homes::home;
pub use mark::Mark;
pub use rows::next_field;
use sheet::Counts;

// One numbering for the rows that are named: the queries, then the statements, then the expressions.
pub const STATEMENT_ROW: usize = base::QUERIES;

pub const EXPR_ROW: usize = STATEMENT_ROW + base::STATEMENTS;

pub const ROWS: usize = EXPR_ROW + base::EXPRESSIONS + 1;

// The marks of all rows.
pub fn mark_all(work: &mut [u64], tables: &[u16], counts: Counts)
    requires { (sizes.per_row ≤ length work.old) × (limits.table_entries ≤ length tables.now) × Within counts }
    ensures { SettledHomes (namings counts (in_tables tables.now)) (expr_row counts.exprs) work.new }
{
    clear(work);
    name_queries(work, tables, counts);
    name_statements(work, tables, counts);
    name_exprs(work, tables, counts);
    settle(work, tables, counts);
}
