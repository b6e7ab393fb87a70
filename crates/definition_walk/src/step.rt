// What a row uses by itself.

ghost use Rattle.std.specs.Prelude.{◌≤◌, ◌<◌, length};
ghost use Rattle.base.specs.Limits as limits;
ghost use Rattle.definition_walk.specs.Inner.UsedVars.{UsedVar};

use crate::own::is_use;
use names::Names;
use scope_state::Scope;
use sheet::Row;

// A variable.
pub fn used_var(tables: &[u16], scope: Scope, extras: Names, w: Row, names: Names) -> Names
    requires { (limits.table_entries ≤ length tables.now) × (w.name < limits.per_name) }
    ensures { UsedVar tables.now scope extras w names result }
{
    if is_use(tables, scope, extras, w) {
        let name = w.name as usize;
        return names.insert(name);
    }
    names
}
