// The extra argument of a call, and the names that it binds.

ghost use Rattle.std.specs.Prelude.{◌≤◌, length};
ghost use Rattle.base.specs.Limits as limits;
ghost use Rattle.scope_walk.specs.Inner.Sheets.{Accepted, expr_count};
ghost use Rattle.definition_literal.specs.Inner.ExtraArgs.{ExtraArg};
ghost use Rattle.definition_literal.specs.Inner.ExtraNames.{ExtraVars};
ghost use Rattle.definition_literal.specs.Inner.Binding.{Joined, Bound};

use definition_state::Progress;
use names::{CAPACITY, Names};
use scope_paths::extra::get_extra_arg;
use scope_state::Scope;
use scope_vars::assigned::gather_assigned_vars;

// The row of the extra argument of the expression at a row, if it may have one; 0 where there is none.
pub fn extra_arg(tables: &[u16], row: usize, call: bool) -> usize
    requires { Accepted tables.now × (row ≤ expr_count tables.now) }
    ensures { ExtraArg tables.now row call result }
{
    if call {
        return get_extra_arg(tables, row);
    }
    0
}

// The names that the extra argument at a row binds, none where the row is 0. None of them is a local, so nothing comes to `spans`.
pub fn extra_vars(tables: &[u16], outer: &[u32], arg: usize) -> Names
    requires { Accepted tables.now × (limits.per_name ≤ length outer.now) × (arg ≤ expr_count tables.now) }
    ensures { ExtraVars tables.now outer.now arg result }
{
    if arg == 0 {
        return Names::empty();
    }
    let mut spans: [u32; CAPACITY] = [0; CAPACITY];
    let none = Scope::empty();
    let scope = gather_assigned_vars(tables, outer, arg, false, false, none, &mut spans);
    scope.unscoped
}

// The names are unscoped besides.
fn join_unscoped(scope: Scope, extras: Names) -> Scope
    ensures { Joined scope extras result }
{
    let unscoped = scope.unscoped.union(extras);
    Scope { unscoped, ..scope }
}

// They are so from here on, unless there is a fault.
pub fn bind_extras(p: Progress, extras: Names) -> Progress
    ensures { Bound p extras result }
{
    if p.is_sound() {
        let scope = join_unscoped(p.scope, extras);
        return p.with_scope(scope);
    }
    p
}
