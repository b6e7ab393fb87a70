// What a statement adds to its query's scope.

ghost use Rattle.std.specs.Prelude.{◌≡◌, List};
ghost use Rattle.scope_gather.specs.Inner.Statements.{AsksStmt, ExprStep, LiteralStep, StmtStep};
ghost use Rattle.scope_walk.specs.Inner.Asks.{AsksWalk};

use crate::locals::add_locals;
use scope_paths::extra::get_extra_arg;
use scope_state::Scope;
use scope_vars::each::{gather_read_each, gather_vars_each};
use scope_vars::vars::{gather_read, gather_vars, is_assign};
use sheet::{Form, Statement};
use sheet_rows::row_at;

// An expression by itself: an assignment binds, and so does an extra argument.
fn gather_expr(tables: &[u16], outer: &[u32], row: usize, scope: Scope, spans: &mut [u32]) -> Scope
    requires { AsksWalk tables.now outer.now row spans.old }
    ensures { ExprStep tables.now outer.now row scope spans.old result spans.new }
{
    if row == 0 {
        return scope;
    }
    if is_assign(row_at(tables, row)) {
        return gather_vars(tables, outer, row, true, false, scope, spans);
    }
    let s = gather_read(tables, outer, row, true, scope, spans);
    let extra = get_extra_arg(tables, row);
    gather_vars(tables, outer, extra, false, false, s, spans)
}

// Key and value of an `every` are seen in its body only.
fn gather_literal(
    tables: &[u16],
    outer: &[u32],
    st: Statement,
    scope: Scope,
    spans: &mut [u32],
) -> Scope
    requires { AsksStmt tables.now outer.now st spans.old }
    ensures { LiteralStep tables.now outer.now st scope spans.old result spans.new }
{
    match Form::from(st.form) {
        Form::SomeVars => add_locals(tables, st.first as usize, scope, spans),
        Form::SomeIn => {
            let mut s = gather_vars_each(tables, outer, st.first as usize, true, scope, spans);
            s = gather_vars_each(tables, outer, st.second as usize, true, s, spans);
            gather_read(tables, outer, st.third as usize, true, s, spans)
        }
        Form::Expr | Form::NotExpr => gather_expr(tables, outer, st.first as usize, scope, spans),
        Form::Every | Form::Unknown => {
            gather_read(tables, outer, st.third as usize, true, scope, spans)
        }
    }
}

// The modifiers come first.
pub fn gather_stmt(
    tables: &[u16],
    outer: &[u32],
    st: Statement,
    scope: Scope,
    spans: &mut [u32],
) -> Scope
    requires { AsksStmt tables.now outer.now st spans.old }
    ensures { StmtStep tables.now outer.now st scope spans.old result spans.new }
{
    let s = gather_read_each(tables, outer, st.with as usize, scope, spans);
    gather_literal(tables, outer, st, s, spans)
}
