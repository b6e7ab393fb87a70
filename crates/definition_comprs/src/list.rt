// The rows of an expression's comprehensions, as a list: what is done with each of them needs no walk over the expression.

ghost use Rattle.std.specs.Prelude.{◌≡◌, ◌+◌, ◌≤◌, ◌<◌, length, get_or, set};
ghost use Rattle.base.specs.Limits as limits;
ghost use Rattle.sheet.specs.Inner.Sheet.{row_at};
ghost use Rattle.scope_walk.specs.Inner.Sheets.{Accepted, expr_count};
ghost use Rattle.definition_comprs.specs.Inner.Lists.{Lists, AtRow, comprs_by, AsksList, AsksBoth, ListsBoth};

use scope_walk::{next_of, none, one, three, two};
use sheet::{Kind, Row};
use sheet_rows::row_at;

// Room for those of two expressions: a comprehension has a query of its own, so neither has more than there are queries.
pub const LISTED: usize = 2 * base::QUERIES;

// A comprehension. Hands back how many are listed.
fn list_row(row: usize, rows: &mut [u16], count: usize) -> usize
    requires { (row ≤ limits.most_expressions) × (count < length rows.old) }
    ensures { (rows.new ≡ set rows.old count row) × (result ≡ count + 1) }
{
    rows[count] = row as u16;
    count + 1
}

// Those of the expression at a row, with the rest of its chain if `rest`, behind the first `count`. No call is made on no row.
fn list_comprs(tables: &[u16], row: usize, rest: bool, rows: &mut [u16], count: usize) -> usize
    requires { AsksList tables.now rest row rows.old count }
    ensures { Lists tables.now (AtRow tables.now row) (comprs_by tables.now rest row) rows.old count rows.new result }
{
    if row == 0 {
        return count;
    }
    let w = row_at(tables, row);
    let next = next_of(w, rest);
    let mut n = count;
    let k = match Kind::from(w.kind) {
        Kind::String | Kind::RawString | Kind::Number | Kind::Bool | Kind::Null => none(),
        Kind::Var => none(),
        // items; fields: keys and values in turn
        Kind::Array | Kind::Set | Kind::Object => one(w.first),
        Kind::ArrayCompr | Kind::SetCompr | Kind::ObjectCompr => {
            n = list_row(row, rows, count);
            none()
        }
        // params
        Kind::Call => one(w.second),
        // expr; refr
        Kind::UnaryExpr | Kind::RefDot => one(w.first),
        // refr, index
        Kind::RefBrack => two(w.first, w.second),
        // lhs, rhs
        Kind::BinExpr | Kind::BoolExpr | Kind::ArithExpr | Kind::AssignEq | Kind::AssignColEq =>
            two(w.first, w.second),
        // key, value, collection
        Kind::Membership => three(w.first, w.second, w.third),
        Kind::Unknown => none(),
    };
    if k.first != 0 {
        n = list_comprs(tables, k.first, true, rows, n);
    }
    if k.second != 0 {
        n = list_comprs(tables, k.second, true, rows, n);
    }
    if k.third != 0 {
        n = list_comprs(tables, k.third, true, rows, n);
    }
    if next == 0 {
        return n;
    }
    list_comprs(tables, next, true, rows, n)
}

// Those of the expression at `one`, with the rest of its chain if `rest`, then those of the chain at `two`. Hands back how many there are.
pub fn list_both(tables: &[u16], one: usize, rest: bool, two: usize, rows: &mut [u16]) -> usize
    requires { AsksBoth tables.now one two rows.old }
    ensures { ListsBoth tables.now rest one two rows.new result }
{
    let count = list_comprs(tables, one, rest, rows, 0);
    list_comprs(tables, two, true, rows, count)
}

// The comprehension at a place of the list.
pub fn listed_at(tables: &[u16], rows: &[u16], at: usize) -> Row
    requires { Accepted tables.now × (at < length rows.now) × (get_or rows.now at 0 ≤ expr_count tables.now) }
    ensures { result ≡ row_at tables.now (get_or rows.now at 0) }
{
    row_at(tables, rows[at] as usize)
}
