// Each expression of a chain, without the rest.

ghost use Rattle.std.specs.Prelude.{◌≡◌, List, ◌≤◌, length};
ghost use Rattle.base.specs.Limits as limits;
ghost use Rattle.scope_walk.specs.Inner.Asks.{AsksWalk};
ghost use Rattle.scope_state.specs.Inner.Chains.{ReadEach, VarsEach};

use crate::vars::{gather_read, gather_vars};
use scope_state::Scope;
use sheet_rows::next_at;

pub fn gather_read_each(
    tables: &[u16],
    outer: &[u32],
    row: usize,
    scope: Scope,
    spans: &mut [u32],
) -> Scope
    requires { AsksWalk tables.now outer.now row spans.old }
    ensures { ReadEach tables.now outer.now row scope spans.old result spans.new }
{
    if row == 0 {
        return scope;
    }
    let next = next_at(tables, row);
    let s = gather_read(tables, outer, row, false, scope, spans);
    gather_read_each(tables, outer, next, s, spans)
}

pub fn gather_vars_each(
    tables: &[u16],
    outer: &[u32],
    row: usize,
    can_shadow: bool,
    scope: Scope,
    spans: &mut [u32],
) -> Scope
    requires { AsksWalk tables.now outer.now row spans.old }
    ensures { VarsEach tables.now outer.now row can_shadow scope spans.old result spans.new }
{
    if row == 0 {
        return scope;
    }
    let next = next_at(tables, row);
    let s = gather_vars(tables, outer, row, false, can_shadow, scope, spans);
    gather_vars_each(tables, outer, next, can_shadow, s, spans)
}
