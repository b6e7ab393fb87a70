// The walk over an expression: what each row does by itself, and the definitions that its brackets make.

ghost use Rattle.std.specs.Prelude.{◌≡◌, ◌≤◌, length};
ghost use Rattle.scope_walk.specs.Inner.Sheets.{Accepted, expr_count};
ghost use Rattle.definition_walk.specs.Inner.Asks.{AsksUsed};
ghost use Rattle.definition_walk.specs.Inner.Index.{IndexFits, IndexDefined};
ghost use Rattle.definition_walk.specs.Inner.Defining.{index_row, FreshNames, Here, UsesWalked, GatheredUses};

use crate::found::Used;
use crate::index::{define_index, index_of};
use crate::row::{use_index, use_var};
use names::Names;
use names_width::Width;
use scope_state::Scope;
use scope_walk::{next_of, none, one, three, two};
use sheet::{Kind, Row};
use sheet_rows::row_at;

// No name so far; the rest stays.
fn fresh(used: Used) -> Used
    ensures { FreshNames used result }
{
    let none = Names::empty();
    used.with_names(none)
}

// The names in the index of the bracket w are defined from the names `inner`, from row `count` on; nothing for any other row. Hands back
// the count of rows.
fn define_here(
    tables: &[u16],
    scope: Scope,
    statement: usize,
    w: Row,
    inner: Names,
    count: usize,
    definitions: &mut [u64],
    width: Width,
) -> usize
    requires { Accepted tables.now × (w.second ≤ expr_count tables.now) × IndexFits tables.now width scope (index_row w) count (length definitions.old) }
    ensures { IndexDefined tables.now width scope statement (index_row w) inner definitions.old definitions.new count result }
{
    let index = index_of(w);
    if index == 0 {
        return count;
    }
    define_index(
        tables,
        scope,
        statement,
        index,
        inner,
        count,
        definitions,
        width,
    )
}

// The row w did `own` by itself, and its first part came to `part`, from no name on.
fn used_here(
    tables: &[u16],
    scope: Scope,
    statement: usize,
    w: Row,
    own: Used,
    part: Used,
    definitions: &mut [u64],
    width: Width,
) -> Used
    requires { Accepted tables.now × (w.second ≤ expr_count tables.now) × IndexFits tables.now width scope (index_row w) part.count (length definitions.old) }
    ensures { Here tables.now width scope statement w own part definitions.old definitions.new result }
{
    let inner = part.names;
    let count = define_here(
        tables,
        scope,
        statement,
        w,
        inner,
        part.count,
        definitions,
        width,
    );
    let names = own.names.union(inner);
    Used {
        names,
        count,
        ..part
    }
}

// What a bracket indexes is walked from no name on, so that the names that it uses are known by themselves. `firsts` has a word a name.
// Most rows have few parts, and a call copies all it is given: so none is made where there is no part.
fn used_from(
    tables: &[u16],
    scope: Scope,
    extras: Names,
    statement: usize,
    row: usize,
    rest: bool,
    used: Used,
    firsts: &mut [u64],
    definitions: &mut [u64],
    width: Width,
) -> Used
    requires { AsksUsed tables.now width scope extras statement row rest used.count firsts.old definitions.old }
    ensures { UsesWalked tables.now width scope extras statement row rest used firsts.old definitions.old result firsts.new definitions.new }
{
    if row == 0 {
        return used;
    }
    let w = row_at(tables, row);
    let next = next_of(w, rest);
    let mut own = used;
    let k = match Kind::from(w.kind) {
        Kind::String | Kind::RawString | Kind::Number | Kind::Bool | Kind::Null => none(),
        Kind::Var => {
            own = use_var(tables, scope, extras, row, w, used, firsts);
            none()
        }
        // items; fields: keys and values in turn
        Kind::Array | Kind::Set | Kind::Object => one(w.first),
        Kind::ArrayCompr | Kind::SetCompr | Kind::ObjectCompr => {
            own = used.with_compr();
            none()
        }
        // params
        Kind::Call => one(w.second),
        // expr; refr
        Kind::UnaryExpr | Kind::RefDot => one(w.first),
        // refr, index
        Kind::RefBrack => {
            own = use_index(tables, scope, w, used);
            two(w.first, w.second)
        }
        // lhs, rhs
        Kind::BinExpr | Kind::BoolExpr | Kind::ArithExpr | Kind::AssignEq | Kind::AssignColEq =>
            two(w.first, w.second),
        // key, value, collection
        Kind::Membership => three(w.first, w.second, w.third),
        Kind::Unknown => none(),
    };
    let mut part = fresh(own);
    if k.first != 0 {
        part = used_from(
            tables,
            scope,
            extras,
            statement,
            k.first,
            true,
            part,
            firsts,
            definitions,
            width,
        );
    }
    let mut s = used_here(tables, scope, statement, w, own, part, definitions, width);
    if k.second != 0 {
        s = used_from(
            tables,
            scope,
            extras,
            statement,
            k.second,
            true,
            s,
            firsts,
            definitions,
            width,
        );
    }
    if k.third != 0 {
        s = used_from(
            tables,
            scope,
            extras,
            statement,
            k.third,
            true,
            s,
            firsts,
            definitions,
            width,
        );
    }
    if next == 0 {
        return s;
    }
    used_from(
        tables,
        scope,
        extras,
        statement,
        next,
        true,
        s,
        firsts,
        definitions,
        width,
    )
}

// The expression at a row of a statement, with the rest of its chain if `rest`. Its uses enter `firsts`, and the definitions are appended
// from row `count` on.
pub fn used_vars(
    tables: &[u16],
    scope: Scope,
    extras: Names,
    statement: usize,
    row: usize,
    rest: bool,
    count: usize,
    firsts: &mut [u64],
    definitions: &mut [u64],
    width: Width,
) -> Used
    requires { AsksUsed tables.now width scope extras statement row rest count firsts.old definitions.old }
    ensures { GatheredUses tables.now width scope extras statement row rest count firsts.old definitions.old result firsts.new definitions.new }
{
    let names = Names::empty();
    let start = Used {
        names,
        count,
        undefined: None,
        reads: false,
        comprs: false,
    };
    used_from(
        tables,
        scope,
        extras,
        statement,
        row,
        rest,
        start,
        firsts,
        definitions,
        width,
    )
}
