// The scopes around a query, as its own gathering needs them: for each name the least line from which on a variable of that name exists there.

ghost use Rattle.std.specs.Prelude.{◌≡◌, List, ◌≤◌, ◌<◌, length};
ghost use Rattle.base.specs.Limits as limits;
ghost use Rattle.scope.specs.Scopes.{var_exists};
ghost use Rattle.scope_state.specs.Inner.Outers.{Exists};

use sheet::Row;

// `var_exists`.
pub fn var_exists(outer: &[u32], w: Row) -> bool
    requires { (limits.per_name ≤ length outer.now) × (w.name < limits.per_name) }
    ensures { Exists outer.now w result }
{
    let name = w.name as usize;
    outer[name] <= w.line as u32
}
