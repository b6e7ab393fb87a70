// `gather_loop_vars`: the index of a bracket is a pattern, whose variables a loop may bind.
// The walk has the parts of the scope in lent words: a scope by value would be copied at every row.

ghost use Rattle.std.specs.Prelude.{◌≡◌, ◌||◌, List, ◌≤◌, length};
ghost use Rattle.base.specs.Limits as limits;
ghost use Rattle.sheet.specs.Sheet.{is_input};
ghost use Rattle.scope_walk.specs.Inner.Sheets.{sheet_at};
ghost use Rattle.scope_walk.specs.Inner.Asks.{AsksLoops};
ghost use Rattle.scope_vars.specs.Inner.Loops.{IndexWalkIn, LoopWalkIn};

use crate::assigned::gather_assigned_vars;
use names::{Names, WORDS};
use scope_state::Scope;
use scope_state::special::is_input;
use scope_walk::{next_of, none, one, three, two};
use sheet::{Kind, Row};
use sheet_rows::row_at;

// Puts the words of a set. It is a function, since no proof is made of a field that is an array and is stored straight.
fn put(set: Names, words: &mut [u64; WORDS])
    ensures { (words.new ≡ set.words) × (length set.words ≡ (limits.library).words) }
{
    let all = set.words;
    *words = all;
}

// The index at a row: a pattern takes the scope as a value. None of its variables is a local. Hands back the flag.
fn bind_index(
    tables: &[u16],
    outer: &[u32],
    row: usize,
    locals: &[u64; WORDS],
    unscoped: &mut [u64; WORDS],
    inputs: &mut [u64; WORDS],
    uses: bool,
    spans: &mut [u32],
) -> bool
    requires { AsksLoops tables.now outer.now row unscoped.old inputs.old spans.old }
    ensures { IndexWalkIn tables.now outer.now row locals.now unscoped.old inputs.old uses spans.old unscoped.new inputs.new result spans.new }
{
    let scope = Scope {
        locals: Names { words: *locals },
        unscoped: Names { words: *unscoped },
        inputs: Names { words: *inputs },
        uses,
    };
    let s = gather_assigned_vars(tables, outer, row, true, false, scope, spans);
    put(s.unscoped, unscoped);
    put(s.inputs, inputs);
    s.uses
}

// A variable may be `input`.
fn flag_input(tables: &[u16], w: Row, uses: bool) -> bool
    requires { limits.table_entries ≤ length tables.now }
    ensures { result ≡ (is_input (sheet_at tables.now) w.name || uses) }
{
    is_input(tables, w.name) || uses
}

// The expression at a row, with the rest of its chain if `rest`. No call is made on no row.
pub fn gather_loop_vars(
    tables: &[u16],
    outer: &[u32],
    row: usize,
    rest: bool,
    locals: &[u64; WORDS],
    unscoped: &mut [u64; WORDS],
    inputs: &mut [u64; WORDS],
    uses: bool,
    spans: &mut [u32],
) -> bool
    requires { AsksLoops tables.now outer.now row unscoped.old inputs.old spans.old }
    ensures { LoopWalkIn tables.now outer.now row rest locals.now unscoped.old inputs.old uses spans.old unscoped.new inputs.new result spans.new }
{
    if row == 0 {
        return uses;
    }
    let w = row_at(tables, row);
    let next = next_of(w, rest);
    let index = w.second as usize;
    let mut s = uses;
    let k = match Kind::from(w.kind) {
        Kind::String | Kind::RawString | Kind::Number | Kind::Bool | Kind::Null => none(),
        Kind::Var => {
            s = flag_input(tables, w, uses);
            none()
        }
        // items; fields: keys and values in turn
        Kind::Array | Kind::Set | Kind::Object => one(w.first),
        Kind::ArrayCompr | Kind::SetCompr | Kind::ObjectCompr => none(),
        // params
        Kind::Call => one(w.second),
        // expr; refr
        Kind::UnaryExpr | Kind::RefDot => one(w.first),
        // refr, index
        Kind::RefBrack => {
            s = bind_index(tables, outer, index, locals, unscoped, inputs, uses, spans);
            two(w.first, w.second)
        }
        // lhs, rhs
        Kind::BinExpr | Kind::BoolExpr | Kind::ArithExpr | Kind::AssignEq | Kind::AssignColEq =>
            two(w.first, w.second),
        // key, value, collection
        Kind::Membership => three(w.first, w.second, w.third),
        Kind::Unknown => none(),
    };
    if k.first != 0 {
        s = gather_loop_vars(
            tables, outer, k.first, true, locals, unscoped, inputs, s, spans,
        );
    }
    if k.second != 0 {
        s = gather_loop_vars(
            tables, outer, k.second, true, locals, unscoped, inputs, s, spans,
        );
    }
    if k.third != 0 {
        s = gather_loop_vars(
            tables, outer, k.third, true, locals, unscoped, inputs, s, spans,
        );
    }
    if next == 0 {
        return s;
    }
    gather_loop_vars(
        tables, outer, next, true, locals, unscoped, inputs, s, spans,
    )
}
