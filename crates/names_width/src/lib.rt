// Sets in lent memory, of as many words as a width says: one text for every width. By value a set has room for the widest.

#![tactic(auto)]

ghost use Rattle.std.specs.Prelude.{◌≡◌, ◌+◌, ◌-◌, ◌*◌, ◌/◌, ◌≤◌, ◌<◌, length};
ghost use Rattle.names.specs.Inner.Sets.{Next};
ghost use Rattle.names_width.specs.Inner.Widths.{set_words, names, work, row_words, Same, Put};
ghost use Rattle.base.specs.Sets.{words_at};

use names::{Names, lowest};

// How many words a set has: a call's limits say it.
#[derive(Clone, Copy, PartialEq, Eq, Debug)]
pub enum Width {
    Two,
    Eight,
}

impl Width {
    pub fn words(self) -> usize
        ensures { result ≡ set_words self }
    {
        match self {
            Width::Two => base::PRINTING_WORDS,
            Width::Eight => base::WORDS,
        }
    }

    // The largest name: a set has a bit for it, and one for the empty name.
    pub fn names(self) -> usize
        ensures { result ≡ names self }
    {
        64 * self.words() - 1
    }

    // The words of work that a call asks for.
    pub fn work(self) -> usize
        ensures { result ≡ work self }
    {
        match self {
            Width::Two => base::PRINTING_WORK,
            Width::Eight => base::WORK,
        }
    }

    // The words of a row of a definition: a statement, a name, and the used names.
    pub fn row(self) -> usize
        ensures { result ≡ row_words self }
    {
        2 + self.words()
    }
}

// The set whose words stand from `at` up.
pub fn load_set(width: Width, memory: &[u64], at: usize) -> Names
    requires { at + set_words width ≤ length memory.now }
    ensures { Same (words_at (set_words width) memory.now at) result.words }
{
    let count = width.words();
    let mut words = [0; base::WORDS];
    words[..count].copy_from_slice(&memory[at..at + count]);
    Names { words }
}

// Puts a set's words from `at` up, as many as the width has.
pub fn store_set(width: Width, memory: &mut [u64], at: usize, set: Names)
    requires { at + set_words width ≤ length memory.old }
    ensures { Put (set_words width) memory.old at set.words memory.new }
{
    let count = width.words();
    memory[at..at + count].copy_from_slice(&set.words[..count]);
}

// The lowest member, from `from` up, of the set whose words stand from `at` up; the end of these words where there is none.
pub fn next_at(width: Width, memory: &[u64], at: usize, from: usize) -> usize
    requires { at + set_words width ≤ length memory.now }
    ensures { Next (words_at (set_words width) memory.now at) (64 * set_words width) from result }
{
    let count = width.words();
    let first = from / 64;
    if count <= first {
        return 64 * count;
    }
    let k = lowest(memory[at + first], from % 64);
    if k < 64 {
        return 64 * first + k;
    }
    for i in first + 1..count {
        let k = lowest(memory[at + i], 0);
        if k < 64 {
            return 64 * i + k;
        }
    }
    64 * count
}
