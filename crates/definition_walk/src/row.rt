// What a row of an expression does by itself.

ghost use Rattle.std.specs.Prelude.{◌≡◌, ◌≤◌, ◌<◌, length};
ghost use Rattle.base.specs.Limits as limits;
ghost use Rattle.sheet.specs.Kinds.{is_compr};
ghost use Rattle.scope_walk.specs.Inner.Sheets.{Accepted, expr_count};
ghost use Rattle.definition_walk.specs.Inner.Asks.{AsksVar};
ghost use Rattle.definition_walk.specs.Inner.Founds.{OwnUsed, IndexUsed, RowUsed};

use crate::assigned::assigned_vars;
use crate::first::add_first_use;
use crate::found::Used;
use crate::own::owns;
use names::Names;
use scope_state::Scope;
use scope_state::special::{is_input, is_special};
use sheet::{Kind, Row};

pub fn is_compr(w: Row) -> bool
    ensures { result ≡ is_compr w }
{
    matches!(
        Kind::from(w.kind),
        Kind::ArrayCompr | Kind::SetCompr | Kind::ObjectCompr
    )
}

// A variable of the query: a use, unless the extra argument binds it.
fn use_own(extras: Names, w: Row, used: Used, firsts: &mut [u64]) -> Used
    requires { (w.name < limits.per_name) × (limits.per_name ≤ length firsts.old) }
    ensures { OwnUsed extras w used firsts.old result firsts.new }
{
    let name = w.name as usize;
    if extras.contains(name) {
        return used;
    }
    add_first_use(w, firsts);
    let names = used.names.insert(name);
    used.with_names(names)
}

// Any variable.
pub(crate) fn use_var(
    tables: &[u16],
    scope: Scope,
    extras: Names,
    row: usize,
    w: Row,
    used: Used,
    firsts: &mut [u64],
) -> Used
    requires { AsksVar tables.now row w firsts.old }
    ensures { RowUsed tables.now scope extras row w used firsts.old result firsts.new }
{
    if is_special(tables, w.name) {
        return used.with_input(is_input(tables, w.name));
    }
    let name = w.name as usize;
    if owns(scope, name) {
        return use_own(extras, w, used, firsts);
    }
    if scope.inputs.contains(name) {
        return used;
    }
    used.with_undefined(row)
}

// A bracket uses the names in its index.
pub(crate) fn use_index(tables: &[u16], scope: Scope, w: Row, used: Used) -> Used
    requires { Accepted tables.now × (w.second ≤ expr_count tables.now) }
    ensures { IndexUsed tables.now scope w used result }
{
    let index = w.second as usize;
    let names = assigned_vars(tables, scope, index, true, used.names);
    used.with_names(names)
}
