// The scopes around a nested query: those around the query that it stands in, and that query's own.
// Most names are in neither set of a scope, so all are copied at once, and then the members alone are visited.

ghost use Rattle.std.specs.Prelude.{◌≡◌, ◌≤◌, min, length};
ghost use Rattle.base.specs.Limits as limits;
ghost use Rattle.scope_state.specs.Inner.Enclosing.{Copied, Lowered, Cleared, Encloses};

use crate::Scope;
use crate::spans::LINE;
use names::{CAPACITY, Names};

// `to` receives the number of each name.
fn copy(from: &[u32], to: &mut [u32])
    requires { (limits.per_name ≤ length from.now) × (limits.per_name ≤ length to.old) }
    ensures { Copied from.now limits.per_name to.new }
{
    to[..CAPACITY].copy_from_slice(&from[..CAPACITY]);
}

// A local exists from its line on, where it did not before.
fn lower_locals(locals: Names, spans: &[u32], inner: &mut [u32])
    requires { (limits.per_name ≤ length spans.now) × (limits.per_name ≤ length inner.old) }
    ensures { Lowered locals.words spans.now inner.old inner.new }
{
    for name in locals.members() {
        inner[name] = inner[name].min(spans[name] / LINE);
    }
}

// An unscoped name exists at every line.
fn clear_unscoped(unscoped: Names, inner: &mut [u32])
    requires { limits.per_name ≤ length inner.old }
    ensures { Cleared unscoped.words inner.old inner.new }
{
    for name in unscoped.members() {
        inner[name] = 0;
    }
}

// `inner` receives what `outer` is, with the scope that has its locals at `spans`.
pub fn enclose(outer: &[u32], scope: Scope, spans: &[u32], inner: &mut [u32])
    requires { (limits.per_name ≤ length outer.now) × (limits.per_name ≤ length spans.now) × (limits.per_name ≤ length inner.old) }
    ensures { Encloses outer.now scope spans.now inner.new }
{
    copy(outer, inner);
    lower_locals(scope.locals, spans, inner);
    clear_unscoped(scope.unscoped, inner);
}
