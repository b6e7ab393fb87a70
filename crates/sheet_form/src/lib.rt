// The sheet as a whole: question 3, and the tables.

#![tactic(auto)]

ghost use Rattle.std.specs.Prelude.{◌≤◌, length};
ghost use Rattle.base.specs.Limits as limits;
ghost use Rattle.sheet_form.specs.Inner.Reads.{SheetRead};

use sheet::Counts;
use sheet_sections::{Progress, section_at};

// Reads a sheet into the tables, and tells how many rows each section has; or the first line that has not the form.
pub fn read_sheet(s: &[u8], table: &mut [u16]) -> Result<Counts, usize>
    requires { limits.table_entries ≤ length table.old }
    ensures { SheetRead s.now table.old result table.new }
{
    let start = Progress {
        next: 0,
        line: 1,
        rows: 0,
    };
    let names = section_at(s, start, b"name", sheet::NAME_AREA, table)?;
    let built_ins = section_at(
        s,
        names,
        b"arity first second third",
        sheet::BUILT_IN_AREA,
        table,
    )?;
    let expressions = section_at(
        s,
        built_ins,
        b"kind name line col first second third next",
        sheet::EXPRESSION_AREA,
        table,
    )?;
    let statements = section_at(
        s,
        expressions,
        b"form first second third query with next",
        sheet::STATEMENT_AREA,
        table,
    )?;
    let queries = section_at(s, statements, b"statement", sheet::QUERY_AREA, table)?;
    if queries.next != s.len() {
        return Err(queries.line);
    }
    Ok(Counts {
        names: names.rows,
        builtins: built_ins.rows,
        exprs: expressions.rows,
        statements: statements.rows,
        queries: queries.rows,
    })
}
