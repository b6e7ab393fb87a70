// The answers of a sheet's queries, for whoever reads them.

ghost use Rattle.std.specs.Prelude.{◌≡◌, ◌+◌, ◌*◌, ◌≤◌, ◌<◌, eqb, length};
ghost use Rattle.base.specs.Limits as limits;
ghost use Rattle.names_width.specs.Inner.Widths.{set_words, Same};
ghost use Rattle.answer_blocks.specs.Inner.Layout.{answers_size, word_at, span_at, set_at, place_at, half};
ghost use Rattle.answer_blocks.specs.Inner.States.{block_state, set_index};

use crate::state::{QuerySet, State};
use crate::{BASE, COUNT, HALF, INPUT, STATE, place_of, places_of, set_place};
use names::Names;
use names_width::{Width, load_set};

#[derive(Clone, Copy)]
pub struct Blocks<'a> {
    pub width: Width,
    pub words: &'a [u64],
    ghost room: { answers_size width ≤ length words.now },
}

// The lower half of a word, or the upper one. The room of the work memory holds positions only two to a word.
fn half_of(word: u64, upper: bool) -> u64
    ensures { result ≡ half word upper }
{
    if upper { word / HALF } else { word % HALF }
}

impl Blocks<'_> {
    // Word i of query q's block, of the first four.
    fn word(self, q: usize, i: usize) -> u64
        requires { (1 ≤ q) × (q ≤ limits.most_queries) × (i ≤ 3) }
        ensures { result ≡ word_at self.entry.width self.entry.words.now q i }
    {
        self.words[place_of(self.width, q, i)]
    }

    pub fn state(self, q: usize) -> State
        requires { (1 ≤ q) × (q ≤ limits.most_queries) }
        ensures { result ≡ block_state (word_at self.entry.width self.entry.words.now q 0) }
    {
        State::from(self.word(q, STATE))
    }

    pub fn uses_input(self, q: usize) -> bool
        requires { (1 ≤ q) × (q ≤ limits.most_queries) }
        ensures { result ≡ eqb (word_at self.entry.width self.entry.words.now q 1) 1 }
    {
        self.word(q, INPUT) == 1
    }

    // How many statements query q has.
    pub fn count(self, q: usize) -> usize
        requires { (1 ≤ q) × (q ≤ limits.most_queries) }
        ensures { result ≡ word_at self.entry.width self.entry.words.now q 2 }
    {
        self.word(q, COUNT) as usize
    }

    // Where the places of query q begin among those of all.
    pub fn base(self, q: usize) -> usize
        requires { (1 ≤ q) × (q ≤ limits.most_queries) }
        ensures { result ≡ word_at self.entry.width self.entry.words.now q 3 }
    {
        self.word(q, BASE) as usize
    }

    // Place k of query q.
    pub fn place(self, q: usize, k: usize) -> u64
        requires { (1 ≤ q) × (q ≤ limits.most_queries) × (word_at self.width self.words.now q 3 + k < limits.most_statements) }
        ensures { result ≡ place_at self.entry.width self.entry.words.now q k }
    {
        self.words[places_of(self.width) + self.base(q) + k]
    }

    pub fn set(self, q: usize, set: QuerySet) -> Names
        requires { (1 ≤ q) × (q ≤ limits.most_queries) }
        ensures { Same (set_at self.entry.width self.entry.words.now q (set_index set)) result.words }
    {
        load_set(self.width, self.words, set_place(self.width, q, set))
    }

    // The position of the local x of query q.
    pub fn span(self, q: usize, x: usize) -> u64
        requires { (1 ≤ q) × (q ≤ limits.most_queries) × (x < 64 * set_words self.width) }
        ensures { result ≡ span_at self.entry.width self.entry.words.now q x }
    {
        let at = place_of(self.width, q, 4 + 3 * self.width.words() + x / 2);
        half_of(self.words[at], x % 2 == 1)
    }
}
