// The definitions that the index of a bracket makes: of each name in it, from the names that what is indexed uses.

ghost use Rattle.std.specs.Prelude.{◌≡◌, cond, ◌+◌, ◌*◌, ◌≤◌, ◌<◌, length};
ghost use Rattle.base.specs.Limits as limits;
ghost use Rattle.names_width.specs.Inner.Widths.{row_words};
ghost use Rattle.sheet.specs.Kinds.{is_ref_brack};
ghost use Rattle.scope_walk.specs.Inner.Sheets.{Accepted, expr_count};
ghost use Rattle.definition_walk.specs.Inner.Appended.{Pushed};
ghost use Rattle.definition_walk.specs.Inner.Index.{LeafFits, LeafDefined, IndexFits, IndexDefined};

use crate::own::owns;
use names::Names;
use names_width::{Width, store_set};
use scope_state::Scope;
use scope_walk::next_of;
use sheet::{Kind, Row};
use sheet_rows::row_at;

// The index of a bracket, 0 for any other row.
pub fn index_of(w: Row) -> usize
    ensures { result ≡ cond (is_ref_brack w) w.second 0 }
{
    match Kind::from(w.kind) {
        Kind::RefBrack => w.second as usize,
        _ => 0,
    }
}

// Row `count`: the statement defines the name from the names `used`.
pub fn push_definition(
    statement: usize,
    name: usize,
    used: Names,
    count: usize,
    definitions: &mut [u64],
    width: Width,
)
    requires { row_words width * count + row_words width ≤ length definitions.old }
    ensures { Pushed width statement name used count definitions.old definitions.new }
{
    let at = width.row() * count;
    definitions[at] = statement as u64;
    definitions[at + 1] = name as u64;
    store_set(width, definitions, at + 2, used);
}

// A variable of the index: one of the query is defined. Hands back the count of rows.
fn define_var(
    scope: Scope,
    statement: usize,
    w: Row,
    used: Names,
    count: usize,
    definitions: &mut [u64],
    width: Width,
) -> usize
    requires { (w.kind ≡ 6) × (w.name < limits.per_name) × LeafFits width scope w count (length definitions.old) }
    ensures { LeafDefined width scope statement w used definitions.old definitions.new count result }
{
    let name = w.name as usize;
    if owns(scope, name) {
        push_definition(statement, name, used, count, definitions, width);
        return count + 1;
    }
    count
}

// The index at a row, with the rest of its chain. Its definitions are appended from row `count` on; hands back the count of rows.
// A call on no row would only copy the scope and the names: none is made but for an empty array or object.
pub fn define_index(
    tables: &[u16],
    scope: Scope,
    statement: usize,
    row: usize,
    used: Names,
    count: usize,
    definitions: &mut [u64],
    width: Width,
) -> usize
    requires { Accepted tables.now × (row ≤ expr_count tables.now) × IndexFits tables.now width scope row count (length definitions.old) }
    ensures { IndexDefined tables.now width scope statement row used definitions.old definitions.new count result }
{
    if row == 0 {
        return count;
    }
    let w = row_at(tables, row);
    let next = next_of(w, true);
    let first = w.first as usize;
    let n = match Kind::from(w.kind) {
        Kind::String | Kind::RawString | Kind::Number | Kind::Bool | Kind::Null => count,
        Kind::Var => define_var(scope, statement, w, used, count, definitions, width),
        // items
        Kind::Array => define_index(
            tables,
            scope,
            statement,
            first,
            used,
            count,
            definitions,
            width,
        ),
        Kind::Set => count,
        // fields: keys and values in turn
        Kind::Object => define_index(
            tables,
            scope,
            statement,
            first,
            used,
            count,
            definitions,
            width,
        ),
        Kind::ArrayCompr
        | Kind::SetCompr
        | Kind::ObjectCompr
        | Kind::Call
        | Kind::UnaryExpr
        | Kind::RefDot
        | Kind::RefBrack
        | Kind::BinExpr
        | Kind::BoolExpr
        | Kind::ArithExpr
        | Kind::AssignEq
        | Kind::AssignColEq
        | Kind::Membership
        | Kind::Unknown => count,
    };
    if next == 0 {
        return n;
    }
    define_index(tables, scope, statement, next, used, n, definitions, width)
}
