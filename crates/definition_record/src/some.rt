// `gather_some_vars`: the variables that a some-in pattern binds.

ghost use Rattle.std.specs.Prelude.{◌≤◌, length};
ghost use Rattle.base.specs.Limits as limits;
ghost use Rattle.scope_walk.specs.Inner.Sheets.{Accepted, expr_count};
ghost use Rattle.definition_record.specs.Inner.SomeVars.{AsksSome, Binds, SomeStep, SomeVars, EnterStep, SomeEntered};

use definition_walk::first::add_first_use;
use names::Names;
use scope_state::Scope;
use scope_state::special::is_input;
use scope_walk::next_of;
use sheet::{Kind, Row};
use sheet_rows::row_at;

// Is a variable a local, and not `input`?
fn is_bound(tables: &[u16], scope: Scope, w: Row) -> bool
    requires { AsksSome tables.now w }
    ensures { Binds tables.now scope w result }
{
    if is_input(tables, w.name) {
        return false;
    }
    let name = w.name as usize;
    scope.locals.contains(name)
}

// A variable: one that is bound is a name.
fn some_var(tables: &[u16], scope: Scope, w: Row, names: Names) -> Names
    requires { AsksSome tables.now w }
    ensures { SomeStep tables.now scope w names result }
{
    if is_bound(tables, scope, w) {
        let name = w.name as usize;
        return names.insert(name);
    }
    names
}

// The pattern at a row, with the rest of its chain. Its names come to `names`.
// A call on no row would only copy the scope and the names: none is made but for an empty array or object.
pub fn some_vars(tables: &[u16], scope: Scope, row: usize, names: Names) -> Names
    requires { Accepted tables.now × (row ≤ expr_count tables.now) }
    ensures { SomeVars tables.now scope row names result }
{
    if row == 0 {
        return names;
    }
    let w = row_at(tables, row);
    let next = next_of(w, true);
    let first = w.first as usize;
    let s = match Kind::from(w.kind) {
        Kind::String | Kind::RawString | Kind::Number | Kind::Bool | Kind::Null => names,
        Kind::Var => some_var(tables, scope, w, names),
        // items
        Kind::Array => some_vars(tables, scope, first, names),
        Kind::Set => names,
        // fields: keys and values in turn
        Kind::Object => some_vars(tables, scope, first, names),
        Kind::ArrayCompr
        | Kind::SetCompr
        | Kind::ObjectCompr
        | Kind::Call
        | Kind::UnaryExpr
        | Kind::RefDot
        | Kind::RefBrack
        | Kind::BinExpr
        | Kind::BoolExpr
        | Kind::ArithExpr
        | Kind::AssignEq
        | Kind::AssignColEq
        | Kind::Membership
        | Kind::Unknown => names,
    };
    if next == 0 {
        return s;
    }
    some_vars(tables, scope, next, s)
}

// A variable: one that is bound is used here.
fn enter_var(tables: &[u16], scope: Scope, w: Row, firsts: &mut [u64])
    requires { AsksSome tables.now w × (limits.per_name ≤ length firsts.old) }
    ensures { EnterStep tables.now scope w firsts.old firsts.new }
{
    if is_bound(tables, scope, w) {
        add_first_use(w, firsts);
    }
}

// The same pattern's variables are uses of their names. `firsts` has a word a name.
// A call on no row would only copy the scope: none is made but for an empty array or object.
pub fn first_some(tables: &[u16], scope: Scope, row: usize, firsts: &mut [u64])
    requires { Accepted tables.now × (row ≤ expr_count tables.now) × (limits.per_name ≤ length firsts.old) }
    ensures { SomeEntered tables.now scope row firsts.old firsts.new }
{
    if row == 0 {
        return;
    }
    let w = row_at(tables, row);
    let next = next_of(w, true);
    let first = w.first as usize;
    match Kind::from(w.kind) {
        Kind::String | Kind::RawString | Kind::Number | Kind::Bool | Kind::Null => {}
        Kind::Var => enter_var(tables, scope, w, firsts),
        // items
        Kind::Array => first_some(tables, scope, first, firsts),
        Kind::Set => {}
        // fields: keys and values in turn
        Kind::Object => first_some(tables, scope, first, firsts),
        Kind::ArrayCompr
        | Kind::SetCompr
        | Kind::ObjectCompr
        | Kind::Call
        | Kind::UnaryExpr
        | Kind::RefDot
        | Kind::RefBrack
        | Kind::BinExpr
        | Kind::BoolExpr
        | Kind::ArithExpr
        | Kind::AssignEq
        | Kind::AssignColEq
        | Kind::Membership
        | Kind::Unknown => {}
    }
    if next == 0 {
        return;
    }
    first_some(tables, scope, next, firsts);
}
