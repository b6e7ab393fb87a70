// `gather_assigned_vars`: the variables of a pattern are locals where they may shadow; else inputs if they exist, and unscoped if not.

ghost use Rattle.std.specs.Prelude.{List};
ghost use Rattle.scope_walk.specs.Inner.Asks.{AsksPattern, AsksWalk};
ghost use Rattle.scope_vars.specs.Inner.Assigned.{AssignVar, AssignWalk};

use scope_state::Scope;
use scope_state::outer::var_exists;
use scope_state::spans::put_span;
use scope_state::special::{is_input, is_special};
use scope_walk::next_of;
use sheet::{Kind, Row};
use sheet_rows::row_at;

// A variable.
fn assign_var(
    tables: &[u16],
    outer: &[u32],
    w: Row,
    can_shadow: bool,
    scope: Scope,
    spans: &mut [u32],
) -> Scope
    requires { AsksPattern tables.now outer.now w spans.old }
    ensures { AssignVar tables.now outer.now w can_shadow scope spans.old result spans.new }
{
    if is_special(tables, w.name) {
        return scope.use_input(is_input(tables, w.name));
    }
    let name = w.name as usize;
    if can_shadow {
        put_span(spans, w);
        return scope.add_local(name);
    }
    if var_exists(outer, w) {
        return scope.add_input(name);
    }
    scope.add_unscoped(name)
}

// The pattern at a row, with the rest of its chain if `rest`.
// A call on no row would only copy the scope: none is made but for an empty array or object.
pub fn gather_assigned_vars(
    tables: &[u16],
    outer: &[u32],
    row: usize,
    rest: bool,
    can_shadow: bool,
    scope: Scope,
    spans: &mut [u32],
) -> Scope
    requires { AsksWalk tables.now outer.now row spans.old }
    ensures { AssignWalk tables.now outer.now row rest can_shadow scope spans.old result spans.new }
{
    if row == 0 {
        return scope;
    }
    let w = row_at(tables, row);
    let next = next_of(w, rest);
    let first = w.first as usize;
    let s = match Kind::from(w.kind) {
        Kind::String | Kind::RawString | Kind::Number | Kind::Bool | Kind::Null => scope,
        Kind::Var => assign_var(tables, outer, w, can_shadow, scope, spans),
        // items
        Kind::Array => gather_assigned_vars(tables, outer, first, true, can_shadow, scope, spans),
        Kind::Set => scope,
        // fields: keys and values in turn
        Kind::Object => gather_assigned_vars(tables, outer, first, true, can_shadow, scope, spans),
        Kind::ArrayCompr
        | Kind::SetCompr
        | Kind::ObjectCompr
        | Kind::Call
        | Kind::UnaryExpr
        | Kind::RefDot
        | Kind::RefBrack
        | Kind::BinExpr
        | Kind::BoolExpr
        | Kind::ArithExpr
        | Kind::AssignEq
        | Kind::AssignColEq
        | Kind::Membership
        | Kind::Unknown => scope,
    };
    if next == 0 {
        return s;
    }
    gather_assigned_vars(tables, outer, next, true, can_shadow, s, spans)
}
