// The names that an expression uses, where nothing is recorded.

ghost use Rattle.std.specs.Prelude.{◌≤◌};
ghost use Rattle.scope_walk.specs.Inner.Sheets.{Accepted, expr_count};
ghost use Rattle.definition_literal.specs.Inner.Used.{NamesWalk};

use definition_walk::assigned::assigned_vars;
use definition_walk::step::used_var;
use names::Names;
use scope_state::Scope;
use scope_walk::next_of;
use sheet::Kind;
use sheet_rows::row_at;

// The expression at a row, with the rest of its chain if `rest`. Its names come to `names`.
// A bracket uses the names in its index too.
pub fn used_names(
    tables: &[u16],
    scope: Scope,
    extras: Names,
    row: usize,
    rest: bool,
    names: Names,
) -> Names
    requires { Accepted tables.now × (row ≤ expr_count tables.now) }
    ensures { NamesWalk tables.now scope extras row rest names result }
{
    if row == 0 {
        return names;
    }
    let w = row_at(tables, row);
    let next = next_of(w, rest);
    let first = w.first as usize;
    let second = w.second as usize;
    let third = w.third as usize;
    let s = match Kind::from(w.kind) {
        Kind::String | Kind::RawString | Kind::Number | Kind::Bool | Kind::Null => names,
        Kind::Var => used_var(tables, scope, extras, w, names),
        // items; fields: keys and values in turn
        Kind::Array | Kind::Set | Kind::Object => {
            used_names(tables, scope, extras, first, true, names)
        }
        Kind::ArrayCompr | Kind::SetCompr | Kind::ObjectCompr => names,
        // params
        Kind::Call => used_names(tables, scope, extras, second, true, names),
        // expr; refr
        Kind::UnaryExpr | Kind::RefDot => used_names(tables, scope, extras, first, true, names),
        // refr, index
        Kind::RefBrack => {
            let own = assigned_vars(tables, scope, second, true, names);
            let u = used_names(tables, scope, extras, first, true, own);
            used_names(tables, scope, extras, second, true, u)
        }
        // lhs, rhs
        Kind::BinExpr | Kind::BoolExpr | Kind::ArithExpr | Kind::AssignEq | Kind::AssignColEq => {
            let u = used_names(tables, scope, extras, first, true, names);
            used_names(tables, scope, extras, second, true, u)
        }
        // key, value, collection
        Kind::Membership => {
            let u = used_names(tables, scope, extras, first, true, names);
            let v = used_names(tables, scope, extras, second, true, u);
            used_names(tables, scope, extras, third, true, v)
        }
        Kind::Unknown => names,
    };
    if next == 0 {
        return s;
    }
    used_names(tables, scope, extras, next, true, s)
}
