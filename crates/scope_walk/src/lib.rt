// Where a walk over an expression goes from a row: into its parts, and on to the rest of its chain.

#![tactic(auto)]

ghost use Rattle.std.specs.Prelude.{◌≡◌, cond, [], ◌∷◌};
ghost use Rattle.scope_walk.specs.Inner.Kids.{kids_from};

use sheet::Row;

// The rows that are entered, in order; 0, no row of a sheet, behind the last. A list would be lent, which costs each walk a loop and its proof.
#[derive(Clone, Copy)]
pub struct Kids {
    pub first: usize,
    pub second: usize,
    pub third: usize,
}

pub fn none() -> Kids
    ensures { result ≡ kids_from [] }
{
    Kids {
        first: 0,
        second: 0,
        third: 0,
    }
}

pub fn one(first: u16) -> Kids
    ensures { result ≡ kids_from (first ∷ []) }
{
    Kids {
        first: first as usize,
        second: 0,
        third: 0,
    }
}

pub fn two(first: u16, second: u16) -> Kids
    ensures { result ≡ kids_from (first ∷ second ∷ []) }
{
    Kids {
        first: first as usize,
        second: second as usize,
        third: 0,
    }
}

pub fn three(first: u16, second: u16, third: u16) -> Kids
    ensures { result ≡ kids_from (first ∷ second ∷ third ∷ []) }
{
    Kids {
        first: first as usize,
        second: second as usize,
        third: third as usize,
    }
}

// The rest of a row's chain, if it is wanted.
pub fn next_of(w: Row, rest: bool) -> usize
    ensures { result ≡ cond rest w.next 0 }
{
    if rest {
        return w.next as usize;
    }
    0
}
