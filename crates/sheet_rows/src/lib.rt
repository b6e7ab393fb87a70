// The rows of a sheet as they stand in the tables. Rows count from 1, and a section's row r stands at its area and r times its width.

#![tactic(auto)]

ghost use Rattle.std.specs.Prelude.{◌≡◌, ◌≤◌, length};
ghost use Rattle.sheet.specs.Inner.Sheet.{row_at};
ghost use Rattle.base.specs.Limits as limits;
ghost use Rattle.sheet.specs.Inner.Records.{builtin_at, expr_at, statement_row_at, first_at};

use sheet::{Builtin, Row, Statement};

// Where each section's row 0 would stand.
const BUILTINS_AT: usize = sheet::BUILT_IN_AREA.start;

const EXPRS_AT: usize = sheet::EXPRESSION_AREA.start;

const STATEMENTS_AT: usize = sheet::STATEMENT_AREA.start;

const QUERIES_AT: usize = sheet::QUERY_AREA.start;

pub fn builtin_at(tables: &[u16], row: usize) -> Builtin
    requires { (limits.table_entries ≤ length tables.now) × (row ≤ limits.most_built_ins) }
    ensures { result ≡ builtin_at tables.now row }
{
    let at = BUILTINS_AT + 4 * row;
    Builtin {
        arity: tables[at],
        first: tables[at + 1],
        second: tables[at + 2],
        third: tables[at + 3],
    }
}

pub fn row_at(tables: &[u16], row: usize) -> Row
    requires { (limits.table_entries ≤ length tables.now) × (row ≤ limits.most_expressions) }
    ensures { result ≡ expr_at tables.now row }
{
    let at = EXPRS_AT + 8 * row;
    Row {
        kind: tables[at],
        name: tables[at + 1],
        line: tables[at + 2],
        col: tables[at + 3],
        first: tables[at + 4],
        second: tables[at + 5],
        third: tables[at + 6],
        next: tables[at + 7],
    }
}

// The rest of the chain.
pub fn next_at(tables: &[u16], row: usize) -> usize
    requires { (limits.table_entries ≤ length tables.now) × (row ≤ limits.most_expressions) }
    ensures { result ≡ (row_at tables.now row).next }
{
    row_at(tables, row).next as usize
}

pub fn statement_at(tables: &[u16], row: usize) -> Statement
    requires { (limits.table_entries ≤ length tables.now) × (row ≤ limits.most_statements) }
    ensures { result ≡ statement_row_at tables.now row }
{
    let at = STATEMENTS_AT + 7 * row;
    Statement {
        form: tables[at],
        first: tables[at + 1],
        second: tables[at + 2],
        third: tables[at + 3],
        query: tables[at + 4],
        with: tables[at + 5],
        next: tables[at + 6],
    }
}

// The first statement of a query, or 0.
pub fn first_at(tables: &[u16], row: usize) -> u16
    requires { (limits.table_entries ≤ length tables.now) × (row ≤ limits.most_queries) }
    ensures { result ≡ first_at tables.now row }
{
    tables[QUERIES_AT + row]
}
