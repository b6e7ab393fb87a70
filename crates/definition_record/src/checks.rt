// `check_first_use` of the variables of a `some`, and of a pattern's locals.

ghost use Rattle.std.specs.Prelude.{◌≡◌, ◌≤◌, ◌<◌, length};
ghost use Rattle.base.specs.Limits as limits;
ghost use Rattle.scope_walk.specs.Inner.Sheets.{Accepted, expr_count};
ghost use Rattle.definition_record.specs.Inner.Checks.{VarChecked, VarsChecked, LeafChecked, AssignedChecked};

use crate::first::check_first_use;
use definition_state::Progress;
use scope_walk::next_of;
use sheet::{Kind, Row};
use sheet_rows::row_at;

fn check_var(w: Row, p: Progress, firsts: &[u64]) -> Progress
    requires { (w.name < limits.per_name) × (limits.per_name ≤ length firsts.now) }
    ensures { VarChecked w p firsts.now result }
{
    match Kind::from(w.kind) {
        Kind::Var => check_first_use(w, p, firsts),
        _ => p,
    }
}

// The variables of the chain from a row on.
// A call on no row would only copy the progress, so none is made.
pub fn check_vars(tables: &[u16], row: usize, p: Progress, firsts: &[u64]) -> Progress
    requires { Accepted tables.now × (row ≤ expr_count tables.now) × (limits.per_name ≤ length firsts.now) }
    ensures { VarsChecked tables.now row p firsts.now result }
{
    if row == 0 {
        return p;
    }
    let w = row_at(tables, row);
    let next = next_of(w, true);
    let q = check_var(w, p, firsts);
    if next == 0 {
        return q;
    }
    check_vars(tables, next, q, firsts)
}

// A variable of a pattern, if it is a local.
fn check_local(w: Row, p: Progress, firsts: &[u64]) -> Progress
    requires { (w.kind ≡ 6) × (w.name < limits.per_name) × (limits.per_name ≤ length firsts.now) }
    ensures { LeafChecked w p firsts.now result }
{
    let name = w.name as usize;
    let scope = p.scope;
    if scope.locals.contains(name) {
        return check_first_use(w, p, firsts);
    }
    p
}

// The locals of the pattern at a row, with the rest of its chain if `rest`.
// A call on no row would only copy the progress: none is made but for an empty array or object.
pub fn check_assigned(
    tables: &[u16],
    row: usize,
    rest: bool,
    p: Progress,
    firsts: &[u64],
) -> Progress
    requires { Accepted tables.now × (row ≤ expr_count tables.now) × (limits.per_name ≤ length firsts.now) }
    ensures { AssignedChecked tables.now row rest p firsts.now result }
{
    if row == 0 {
        return p;
    }
    let w = row_at(tables, row);
    let next = next_of(w, rest);
    let first = w.first as usize;
    let q = match Kind::from(w.kind) {
        Kind::String | Kind::RawString | Kind::Number | Kind::Bool | Kind::Null => p,
        Kind::Var => check_local(w, p, firsts),
        // items
        Kind::Array => check_assigned(tables, first, true, p, firsts),
        Kind::Set => p,
        // fields: keys and values in turn
        Kind::Object => check_assigned(tables, first, true, p, firsts),
        Kind::ArrayCompr
        | Kind::SetCompr
        | Kind::ObjectCompr
        | Kind::Call
        | Kind::UnaryExpr
        | Kind::RefDot
        | Kind::RefBrack
        | Kind::BinExpr
        | Kind::BoolExpr
        | Kind::ArithExpr
        | Kind::AssignEq
        | Kind::AssignColEq
        | Kind::Membership
        | Kind::Unknown => p,
    };
    if next == 0 {
        return q;
    }
    check_assigned(tables, next, true, q, firsts)
}
