// `gather_local_vars`: the scope of a query before its statements are analysed.

ghost use Rattle.std.specs.Prelude.{◌≡◌, List};
ghost use Rattle.scope_gather.specs.Inner.Queries.{AsksLocals, StmtsStep, Gathered};
ghost use Rattle.scope_gather.specs.Inner.Statements.{AsksStmtWalk};

use crate::statements::gather_stmt;
use scope_state::Scope;
use scope_vars::each::gather_vars_each;
use sheet_rows::{first_at, statement_at};

// The statements from a row on.
fn gather_stmts(tables: &[u16], outer: &[u32], row: usize, scope: Scope, spans: &mut [u32]) -> Scope
    requires { AsksStmtWalk tables.now outer.now row spans.old }
    ensures { StmtsStep tables.now outer.now row scope spans.old result spans.new }
{
    if row == 0 {
        return scope;
    }
    let st = statement_at(tables, row);
    let s = gather_stmt(tables, outer, st, scope, spans);
    gather_stmts(tables, outer, st.next as usize, s, spans)
}

// The query's outputs are the chains at `key` and `value`.
pub fn gather_local_vars(
    tables: &[u16],
    outer: &[u32],
    query: usize,
    key: usize,
    value: usize,
    spans: &mut [u32],
) -> Scope
    requires { AsksLocals tables.now outer.now query key value spans.old }
    ensures { Gathered tables.now outer.now query key value result spans.new }
{
    let none = Scope::empty();
    let row = first_at(tables, query) as usize;
    let mut s = gather_stmts(tables, outer, row, none, spans);
    s = gather_vars_each(tables, outer, key, false, s, spans);
    s = gather_vars_each(tables, outer, value, false, s, spans);
    s.remove_shadowed()
}
