// The two sides of an assignment: arrays are taken apart, part by part.

ghost use Rattle.std.specs.Prelude.{◌≡◌, cond, ◌&&◌, ◌≤◌};
ghost use Rattle.sheet.specs.Kinds.{is_array};
ghost use Rattle.scope_walk.specs.Inner.Sheets.{Accepted, expr_count};
ghost use Rattle.definition_state.specs.Inner.Faults.{is_sound};
ghost use Rattle.definition_state.specs.Inner.Frames.{failed};
ghost use Rattle.definition_state.specs.declared.Fault.TheVariants.{Lengths};
ghost use Rattle.definition_literal.specs.Inner.Pairs.{chains_by, pair_by};

use definition_state::{Fault, Progress};
use scope_paths::extra::end_of;
use sheet::{Kind, Row};

// Rows to assign to each other, or chains of rows to pair, or arrays whose lengths differ.
#[derive(Clone, Copy, Debug, PartialEq, Eq)]
pub enum Pair {
    Sides(usize, usize),
    Chains(usize, usize),
    Differ,
}

fn both_arrays(a: Row, b: Row) -> bool
    ensures { result ≡ (is_array a && is_array b) }
{
    matches!(Kind::from(a.kind), Kind::Array) && matches!(Kind::from(b.kind), Kind::Array)
}

// Two arrays, by the chains of their parts.
fn arrays(tables: &[u16], lefts: usize, rights: usize) -> Pair
    requires { Accepted tables.now × (lefts ≤ expr_count tables.now) × (rights ≤ expr_count tables.now) }
    ensures { result ≡ chains_by tables.now lefts rights }
{
    let a = end_of(tables, lefts);
    let b = end_of(tables, rights);
    if a.count == b.count {
        return Pair::Chains(lefts, rights);
    }
    Pair::Differ
}

// The rows a and b at `left` and `right`.
pub fn pair_of(tables: &[u16], left: usize, right: usize, a: Row, b: Row) -> Pair
    requires { Accepted tables.now × (a.first ≤ expr_count tables.now) × (b.first ≤ expr_count tables.now) }
    ensures { result ≡ pair_by tables.now left right a b }
{
    if both_arrays(a, b) {
        return arrays(tables, a.first as usize, b.first as usize);
    }
    Pair::Sides(left, right)
}

// 13 at the right side b, whose length differs, if there is no fault before.
pub fn differ(b: Row, p: Progress) -> Progress
    ensures { result ≡ cond (is_sound p.fault) (failed p (Lengths b.line b.col)) p }
{
    if p.is_sound() {
        return p.fail(Fault::Lengths(b.line, b.col));
    }
    p
}
