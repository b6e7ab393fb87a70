// `gather_input_vars`: the variables of an expression that exist in the scopes around the query are its inputs.
// The walk has the parts of the scope in lent words: a scope by value would be copied at every row.

ghost use Rattle.std.specs.Prelude.{List};
ghost use Rattle.scope_walk.specs.Inner.Asks.{AsksInput, AsksInputs};
ghost use Rattle.scope_vars.specs.Inner.Inputs.{InputVarIn, InputWalkIn};

use names::{WORDS, add, has};
use scope_state::outer::var_exists;
use scope_state::special::is_input;
use scope_walk::{next_of, none, one, three, two};
use sheet::{Kind, Row};
use sheet_rows::row_at;

// A variable: `input` sets the flag, and a name that is not unscoped so far and exists is an input. Hands back the flag.
fn input_var(
    tables: &[u16],
    outer: &[u32],
    w: Row,
    unscoped: &[u64; WORDS],
    inputs: &mut [u64; WORDS],
    uses: bool,
) -> bool
    requires { AsksInput tables.now outer.now w unscoped.now inputs.old }
    ensures { InputVarIn tables.now outer.now w unscoped.now inputs.old uses inputs.new result }
{
    if is_input(tables, w.name) {
        return true;
    }
    let name = w.name as usize;
    if has(unscoped, name) {
        return uses;
    }
    if !var_exists(outer, w) {
        return uses;
    }
    add(inputs, name);
    uses
}

// The expression at a row, with the rest of its chain if `rest`. No call is made on no row.
pub fn gather_input_vars(
    tables: &[u16],
    outer: &[u32],
    row: usize,
    rest: bool,
    unscoped: &[u64; WORDS],
    inputs: &mut [u64; WORDS],
    uses: bool,
) -> bool
    requires { AsksInputs tables.now outer.now row unscoped.now inputs.old }
    ensures { InputWalkIn tables.now outer.now row rest unscoped.now inputs.old uses inputs.new result }
{
    if row == 0 {
        return uses;
    }
    let w = row_at(tables, row);
    let next = next_of(w, rest);
    let mut s = uses;
    let k = match Kind::from(w.kind) {
        Kind::String | Kind::RawString | Kind::Number | Kind::Bool | Kind::Null => none(),
        Kind::Var => {
            s = input_var(tables, outer, w, unscoped, inputs, uses);
            none()
        }
        // items; fields: keys and values in turn
        Kind::Array | Kind::Set | Kind::Object => one(w.first),
        Kind::ArrayCompr | Kind::SetCompr | Kind::ObjectCompr => none(),
        // params
        Kind::Call => one(w.second),
        // expr; refr
        Kind::UnaryExpr | Kind::RefDot => one(w.first),
        // refr, index
        Kind::RefBrack => two(w.first, w.second),
        // lhs, rhs
        Kind::BinExpr | Kind::BoolExpr | Kind::ArithExpr | Kind::AssignEq | Kind::AssignColEq =>
            two(w.first, w.second),
        // key, value, collection
        Kind::Membership => three(w.first, w.second, w.third),
        Kind::Unknown => none(),
    };
    if k.first != 0 {
        s = gather_input_vars(tables, outer, k.first, true, unscoped, inputs, s);
    }
    if k.second != 0 {
        s = gather_input_vars(tables, outer, k.second, true, unscoped, inputs, s);
    }
    if k.third != 0 {
        s = gather_input_vars(tables, outer, k.third, true, unscoped, inputs, s);
    }
    if next == 0 {
        return s;
    }
    gather_input_vars(tables, outer, next, true, unscoped, inputs, s)
}
