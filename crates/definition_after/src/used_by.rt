// All names that an expression uses, once its comprehensions and those of the modifiers are analysed.

ghost use Rattle.std.specs.Prelude.{◌≡◌, ◌&&◌, ◌≤◌, eqb, length};
ghost use Rattle.scope_walk.specs.Inner.Sheets.{expr_count};
ghost use Rattle.definition_comprs.specs.Inner.Lists.{listed_at};
ghost use Rattle.definition_comprs.specs.Inner.Used.{AsksListed};
ghost use Rattle.definition_cycle.specs.Inner.Asks.{AsksUsedBy, AsksVarUsed};
ghost use Rattle.definition_cycle.specs.Inner.AllUsed.{AllUsed, WithoutComprs, OthersUsed, OtherUsed, PartUsed, LeavesUsed};

use definition_comprs::list::{LISTED, list_both};
use definition_comprs::used::comprs_used;
use definition_expr::Using;
use definition_literal::context::Context;
use definition_literal::some::is_name;
use definition_literal::used_names::used_names;
use definition_state::Progress;
use names::Names;
use names_width::Width;
use scope_state::Scope;
use sheet::{Kind, Row};
use sheet_rows::row_at;

// Beside the names that it uses by itself. The listed rows are its comprehensions, and those of the modifiers.
pub fn all_used(
    tables: &[u16],
    p: Progress,
    names: Names,
    rows: &[u16],
    context: Context,
    work: &[u64],
) -> Names
    requires { AsksListed tables.now p.width rows.now work.now }
    ensures { AllUsed tables.now p.width p.scope names (listed_at tables.now rows.now 0 (length rows.now)) context work.now result }
{
    let scope = p.scope;
    let width = p.width;
    let by = names.union(context.names);
    comprs_used(tables, scope, work, rows, by, width)
}

// Are there no comprehensions, neither of an expression nor of the modifiers?
pub fn none_left(comprs: usize, mods: usize) -> bool
    ensures { result ≡ (eqb comprs 0 && eqb mods 0) }
{
    comprs == 0 && mods == 0
}

// All names, where there are none: its own and those of the modifiers.
pub fn without_comprs(u: Using, context: Context) -> Using
    ensures { WithoutComprs u context result }
{
    Using {
        names: u.names.union(context.names),
        ..u
    }
}

// A part of a some-in pattern that is no variable.
fn other_used(
    tables: &[u16],
    scope: Scope,
    row: usize,
    mods: usize,
    work: &[u64],
    names: Names,
    width: Width,
) -> Names
    requires { (row ≡ 0 → ⊥) × AsksUsedBy tables.now width row mods work.now }
    ensures { OtherUsed tables.now width scope row mods work.now names result }
{
    let none = Names::empty();
    let by = used_names(tables, scope, none, row, false, names);
    let mut rows: [u16; LISTED] = [0; LISTED];
    let end = list_both(tables, row, false, mods, &mut rows);
    comprs_used(tables, scope, work, &rows[..end], by, width)
}

// A variable of a some-in pattern: a part by itself, but for a local and `input`.
fn var_used(
    tables: &[u16],
    p: Progress,
    row: usize,
    w: Row,
    mods: usize,
    work: &[u64],
    names: Names,
) -> Names
    requires { AsksVarUsed tables.now p.width row w mods work.now }
    ensures { PartUsed tables.now p.width p.scope row w mods work.now names result }
{
    if is_name(tables, p, w) {
        return names;
    }
    let width = p.width;
    other_used(tables, p.scope, row, mods, work, names, width)
}

// The parts of the pattern at a row, with the rest of its chain, that are no variables. A call on no row would only copy the progress:
// none is made but for an empty array or object.
fn leaves_used(
    tables: &[u16],
    p: Progress,
    row: usize,
    mods: usize,
    work: &[u64],
    names: Names,
) -> Names
    requires { AsksUsedBy tables.now p.width row mods work.now }
    ensures { LeavesUsed tables.now p.width p.scope row mods work.now names result }
{
    if row == 0 {
        return names;
    }
    let w = row_at(tables, row);
    let first = w.first as usize;
    let width = p.width;
    let s = match Kind::from(w.kind) {
        Kind::String | Kind::RawString | Kind::Number | Kind::Bool | Kind::Null => {
            other_used(tables, p.scope, row, mods, work, names, width)
        }
        Kind::Var => var_used(tables, p, row, w, mods, work, names),
        // items
        Kind::Array => leaves_used(tables, p, first, mods, work, names),
        Kind::Set => other_used(tables, p.scope, row, mods, work, names, width),
        // fields: keys and values in turn
        Kind::Object => leaves_used(tables, p, first, mods, work, names),
        Kind::ArrayCompr
        | Kind::SetCompr
        | Kind::ObjectCompr
        | Kind::Call
        | Kind::UnaryExpr
        | Kind::RefDot
        | Kind::RefBrack
        | Kind::BinExpr
        | Kind::BoolExpr
        | Kind::ArithExpr
        | Kind::AssignEq
        | Kind::AssignColEq
        | Kind::Membership
        | Kind::Unknown => other_used(tables, p.scope, row, mods, work, names, width),
    };
    if w.next == 0 {
        return s;
    }
    leaves_used(tables, p, w.next as usize, mods, work, s)
}

// What the parts of a some-in pattern use that are no variables.
pub fn others_used(
    tables: &[u16],
    p: Progress,
    key: usize,
    value: usize,
    context: Context,
    work: &[u64],
) -> Names
    requires { AsksUsedBy tables.now p.width key context.mods work.now × (value ≤ expr_count tables.now) }
    ensures { OthersUsed tables.now p.width p.scope key value context work.now result }
{
    let none = Names::empty();
    let mods = context.mods;
    let by = leaves_used(tables, p, key, mods, work, none);
    leaves_used(tables, p, value, mods, work, by)
}
