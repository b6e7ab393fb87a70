// `gather_assigned_vars`: the names of a query that a pattern assigns.

ghost use Rattle.std.specs.Prelude.{◌≡◌, cond, ◌≤◌, ◌<◌};
ghost use Rattle.base.specs.Limits as limits;
ghost use Rattle.sheet.specs.Kinds.{is_pattern};
ghost use Rattle.scope_walk.specs.Inner.Sheets.{Accepted, expr_count};
ghost use Rattle.definition_walk.specs.Inner.Assigned.{LeafStep, AssignedWalk};

use crate::own::owns;
use names::Names;
use scope_state::Scope;
use scope_walk::next_of;
use sheet::{Kind, Row};
use sheet_rows::row_at;

// The first part of an array or an object, 0 for any other row.
pub fn pattern_of(w: Row) -> usize
    ensures { result ≡ cond (is_pattern w) w.first 0 }
{
    match Kind::from(w.kind) {
        Kind::String | Kind::RawString | Kind::Number | Kind::Bool | Kind::Null => 0,
        Kind::Var => 0,
        // items
        Kind::Array => w.first as usize,
        Kind::Set => 0,
        // fields: keys and values in turn
        Kind::Object => w.first as usize,
        Kind::ArrayCompr
        | Kind::SetCompr
        | Kind::ObjectCompr
        | Kind::Call
        | Kind::UnaryExpr
        | Kind::RefDot
        | Kind::RefBrack
        | Kind::BinExpr
        | Kind::BoolExpr
        | Kind::ArithExpr
        | Kind::AssignEq
        | Kind::AssignColEq
        | Kind::Membership
        | Kind::Unknown => 0,
    }
}

// A variable: one of the query is a name.
fn assigned_var(scope: Scope, w: Row, names: Names) -> Names
    requires { (w.kind ≡ 6) × (w.name < limits.per_name) }
    ensures { LeafStep scope w names result }
{
    let name = w.name as usize;
    if owns(scope, name) {
        return names.insert(name);
    }
    names
}

// The pattern at a row, with the rest of its chain if `rest`. Its names come to `names`.
// A call on no row would only copy the scope and the names: none is made but for an empty array or object.
pub fn assigned_vars(tables: &[u16], scope: Scope, row: usize, rest: bool, names: Names) -> Names
    requires { Accepted tables.now × (row ≤ expr_count tables.now) }
    ensures { AssignedWalk tables.now scope row rest names result }
{
    if row == 0 {
        return names;
    }
    let w = row_at(tables, row);
    let next = next_of(w, rest);
    let first = w.first as usize;
    let s = match Kind::from(w.kind) {
        Kind::String | Kind::RawString | Kind::Number | Kind::Bool | Kind::Null => names,
        Kind::Var => assigned_var(scope, w, names),
        // items
        Kind::Array => assigned_vars(tables, scope, first, true, names),
        Kind::Set => names,
        // fields: keys and values in turn
        Kind::Object => assigned_vars(tables, scope, first, true, names),
        Kind::ArrayCompr
        | Kind::SetCompr
        | Kind::ObjectCompr
        | Kind::Call
        | Kind::UnaryExpr
        | Kind::RefDot
        | Kind::RefBrack
        | Kind::BinExpr
        | Kind::BoolExpr
        | Kind::ArithExpr
        | Kind::AssignEq
        | Kind::AssignColEq
        | Kind::Membership
        | Kind::Unknown => names,
    };
    if next == 0 {
        return s;
    }
    assigned_vars(tables, scope, next, true, s)
}
