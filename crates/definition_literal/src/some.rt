// The pattern of `some .. in ..`.

ghost use Rattle.std.specs.Prelude.{◌≡◌, cond, ◌&&◌, ◌≤◌, ◌<◌, ltb, length};
ghost use Rattle.base.specs.Limits as limits;
ghost use Rattle.definition_state.specs.Inner.Faults.{is_sound};
ghost use Rattle.definition_state.specs.Inner.Frames.{failed};
ghost use Rattle.definition_state.specs.declared.Fault.TheVariants.{IndexVariable};
ghost use Rattle.definition_literal.specs.Inner.SomeIn.{IsName, NonVar};

use definition_state::{Fault, Progress};
use scope_state::special::is_input;
use sheet::{Kind, Row};

// Is a variable a local, or `input`?
pub fn is_name(tables: &[u16], p: Progress, w: Row) -> bool
    requires { (w.kind ≡ 6) × (limits.table_entries ≤ length tables.now) × (w.name < limits.per_name) }
    ensures { IsName tables.now p.scope w result }
{
    if is_input(tables, w.name) {
        return true;
    }
    let locals = p.scope.locals;
    locals.contains(w.name as usize)
}

// The row w, where it is a part of the pattern that is no variable; 0 where it is one, and where it is made of parts itself. No Option: a
// sheet writes 0 for no row, and so do those who are called on one.
pub fn non_var(tables: &[u16], p: Progress, row: usize, w: Row) -> usize
    requires { (limits.table_entries ≤ length tables.now) × (w.name < limits.per_name) }
    ensures { NonVar tables.now p.scope row w result }
{
    match Kind::from(w.kind) {
        Kind::String | Kind::RawString | Kind::Number | Kind::Bool | Kind::Null => row,
        Kind::Var => {
            if is_name(tables, p, w) {
                return 0;
            }
            row
        }
        // items
        Kind::Array => 0,
        Kind::Set => row,
        // fields: keys and values in turn
        Kind::Object => 0,
        Kind::ArrayCompr
        | Kind::SetCompr
        | Kind::ObjectCompr
        | Kind::Call
        | Kind::UnaryExpr
        | Kind::RefDot
        | Kind::RefBrack
        | Kind::BinExpr
        | Kind::BoolExpr
        | Kind::ArithExpr
        | Kind::AssignEq
        | Kind::AssignColEq
        | Kind::Membership
        | Kind::Unknown => row,
    }
}

// 14, where there are more definitions than before.
pub fn fail_if_some(before: usize, p: Progress) -> Progress
    ensures { result ≡ cond (is_sound p.fault && ltb before p.count) (failed p IndexVariable) p }
{
    if p.is_sound() {
        if before < p.count {
            return p.fail(Fault::IndexVariable);
        }
    }
    p
}
