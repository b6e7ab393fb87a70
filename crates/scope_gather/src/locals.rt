// The variables of a `some`: each is a local.

ghost use Rattle.std.specs.Prelude.{◌≡◌, List, ◌≤◌, ◌<◌, length};
ghost use Rattle.base.specs.Limits as limits;
ghost use Rattle.scope_walk.specs.Inner.Sheets.{Accepted, expr_count};
ghost use Rattle.scope_gather.specs.Inner.Locals.{LocalStep, LocalsEach};

use scope_state::Scope;
use scope_state::spans::put_span;
use scope_walk::next_of;
use sheet::{Kind, Row};
use sheet_rows::row_at;

fn local_step(w: Row, scope: Scope, spans: &mut [u32]) -> Scope
    requires { (w.name < limits.per_name) × (limits.per_name ≤ length spans.old) }
    ensures { LocalStep w scope spans.old result spans.new }
{
    match Kind::from(w.kind) {
        Kind::Var => {
            put_span(spans, w);
            scope.add_local(w.name as usize)
        }
        _ => scope,
    }
}

// Those of the chain from a row on.
pub fn add_locals(tables: &[u16], row: usize, scope: Scope, spans: &mut [u32]) -> Scope
    requires { Accepted tables.now × (row ≤ expr_count tables.now) × (limits.per_name ≤ length spans.old) }
    ensures { LocalsEach tables.now row scope spans.old result spans.new }
{
    if row == 0 {
        return scope;
    }
    let w = row_at(tables, row);
    let next = next_of(w, true);
    let s = local_step(w, scope, spans);
    add_locals(tables, next, s, spans)
}
