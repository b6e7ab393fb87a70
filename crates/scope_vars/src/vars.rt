// What every expression that is read is put through, and `gather_vars`.

ghost use Rattle.std.specs.Prelude.{◌≡◌, List};
ghost use Rattle.sheet.specs.Kinds.{is_assign, is_col_eq};
ghost use Rattle.scope_walk.specs.Inner.Asks.{AsksWalk};
ghost use Rattle.scope_vars.specs.Inner.Vars.{ReadWalk, BoundWalk, VarsWalk};

use crate::assigned::gather_assigned_vars;
use crate::input::gather_input_vars;
use crate::loops::gather_loop_vars;
use names::Names;
use scope_state::Scope;
use sheet::{Kind, Row};
use sheet_rows::row_at;

// The expression at a row is read, with the rest of its chain if `rest`. The walks have the parts of the scope, which is put together again.
pub fn gather_read(
    tables: &[u16],
    outer: &[u32],
    row: usize,
    rest: bool,
    scope: Scope,
    spans: &mut [u32],
) -> Scope
    requires { AsksWalk tables.now outer.now row spans.old }
    ensures { ReadWalk tables.now outer.now row rest scope spans.old result spans.new }
{
    let locals = scope.locals.words;
    let mut unscoped = scope.unscoped.words;
    let mut inputs = scope.inputs.words;
    let read = gather_input_vars(tables, outer, row, rest, &unscoped, &mut inputs, scope.uses);
    let uses = gather_loop_vars(
        tables,
        outer,
        row,
        rest,
        &locals,
        &mut unscoped,
        &mut inputs,
        read,
        spans,
    );
    Scope {
        locals: Names { words: locals },
        unscoped: Names { words: unscoped },
        inputs: Names { words: inputs },
        uses,
    }
}

pub fn is_assign(w: Row) -> bool
    ensures { result ≡ is_assign w }
{
    matches!(Kind::from(w.kind), Kind::AssignEq | Kind::AssignColEq)
}

pub fn is_col_eq(w: Row) -> bool
    ensures { result ≡ is_col_eq w }
{
    matches!(Kind::from(w.kind), Kind::AssignColEq)
}

// Both sides of an assignment are patterns, and `:=` shadows. Any other expression is a pattern itself.
fn gather_bound(
    tables: &[u16],
    outer: &[u32],
    row: usize,
    rest: bool,
    can_shadow: bool,
    scope: Scope,
    spans: &mut [u32],
) -> Scope
    requires { AsksWalk tables.now outer.now row spans.old }
    ensures { BoundWalk tables.now outer.now row rest can_shadow scope spans.old result spans.new }
{
    if row == 0 {
        return scope;
    }
    let w = row_at(tables, row);
    if is_assign(w) {
        let shadows = is_col_eq(w);
        let s = gather_assigned_vars(tables, outer, w.first as usize, true, shadows, scope, spans);
        return gather_assigned_vars(tables, outer, w.second as usize, true, false, s, spans);
    }
    gather_assigned_vars(tables, outer, row, rest, can_shadow, scope, spans)
}

// The expression at a row is bound and read, with the rest of its chain if `rest`.
pub fn gather_vars(
    tables: &[u16],
    outer: &[u32],
    row: usize,
    rest: bool,
    can_shadow: bool,
    scope: Scope,
    spans: &mut [u32],
) -> Scope
    requires { AsksWalk tables.now outer.now row spans.old }
    ensures { VarsWalk tables.now outer.now row rest can_shadow scope spans.old result spans.new }
{
    let s = gather_bound(tables, outer, row, rest, can_shadow, scope, spans);
    gather_read(tables, outer, row, rest, s, spans)
}
