// What a variable is to a query: one of its own, and a use of such a one.

ghost use Rattle.std.specs.Prelude.{◌≤◌, ◌<◌, length};
ghost use Rattle.base.specs.Limits as limits;
ghost use Rattle.definition_walk.specs.Inner.Own.{Owns, IsUse};

use names::Names;
use scope_state::Scope;
use scope_state::special::is_special;
use sheet::Row;

// Is it a local or an unscoped name?
pub fn owns(scope: Scope, name: usize) -> bool
    requires { name < limits.per_name }
    ensures { Owns scope name result }
{
    if scope.locals.contains(name) {
        return true;
    }
    scope.unscoped.contains(name)
}

// Does the variable use a name of this query? `extras` are the names that the extra argument of the expression binds.
pub fn is_use(tables: &[u16], scope: Scope, extras: Names, w: Row) -> bool
    requires { (limits.table_entries ≤ length tables.now) × (w.name < limits.per_name) }
    ensures { IsUse tables.now scope extras w result }
{
    if is_special(tables, w.name) {
        return false;
    }
    let name = w.name as usize;
    if owns(scope, name) {
        return !extras.contains(name);
    }
    false
}
