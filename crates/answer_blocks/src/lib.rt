// Where the answers of a sheet's queries stand in lent memory, by the width of sets: a block for each query, and the places of all queries
// behind the blocks. Whoever reads or writes a part of a block does it here.

#![tactic(auto)]

pub mod blocks;
pub mod put;
pub mod state;

ghost use Rattle.std.specs.Prelude.{◌≡◌, ◌+◌, ◌-◌, ◌*◌, ◌≤◌};
ghost use Rattle.base.specs.Limits as limits;
ghost use Rattle.names_width.specs.Inner.Widths.{set_words};
ghost use Rattle.answer_blocks.specs.Inner.Layout.{block_size, places, answers_size};
ghost use Rattle.answer_blocks.specs.Inner.States.{set_index};

use crate::state::QuerySet;
use base::{QUERIES, STATEMENTS};
use names_width::Width;

// The first words of a block: the query's state, whether it uses input, how many statements it has, and the place of the first of them among
// the places.
pub const STATE: usize = 0;

pub const INPUT: usize = 1;

pub const COUNT: usize = 2;

pub const BASE: usize = 3;

// A position has 32 bits, half a word.
const HALF: u64 = 0x1_0000_0000;

// The words of a block: four, three sets, and the positions of as many names as a set has room for, two to a word.
pub fn block_of(width: Width) -> usize
    ensures { result ≡ block_size width }
{
    4 + (3 + 32) * width.words()
}

// Where the places begin.
pub fn places_of(width: Width) -> usize
    ensures { result ≡ places width }
{
    QUERIES * block_of(width)
}

// The words of all answers.
pub fn answers_of(width: Width) -> usize
    ensures { result ≡ answers_size width }
{
    places_of(width) + STATEMENTS
}

// Where word i of query q's block stands.
pub fn place_of(width: Width, q: usize, i: usize) -> usize
    requires { (1 ≤ q) × (q ≤ limits.most_queries) × (i ≤ block_size width) }
    ensures { result ≡ block_size width * (q - 1) + i }
{
    block_of(width) * (q - 1) + i
}

// Where a set of query q stands.
fn set_place(width: Width, q: usize, set: QuerySet) -> usize
    requires { (1 ≤ q) × (q ≤ limits.most_queries) }
    ensures { result ≡ block_size width * (q - 1) + (4 + set_words width * set_index set) }
{
    place_of(width, q, 4 + width.words() * set.index())
}
