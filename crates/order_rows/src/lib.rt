// A list of definitions as rows of words, and its two indexes: the rows of each statement, and the statements of each name.

#![tactic(auto)]

ghost use Rattle.std.specs.Prelude.{◌≡◌, ◌+◌, ◌*◌, ◌<◌};
ghost use Rattle.names.specs.Inner.Sets.{Next};
ghost use Rattle.names_width.specs.Inner.Widths.{set_words, row_words};
ghost use Rattle.order.specs.Call.{row_count, statement_at, var_at, used_words_at};

mod links;
mod masks;
mod used;

pub use links::{Chain, Links, link};
pub use masks::{add_to_mask, mask};
use names_width::{Width, next_at};
pub use used::Used;

// A row has a statement, a name, and the words of the names that it uses.
#[derive(Clone, Copy)]
pub struct Rows<'a> {
    pub width: Width,
    pub words: &'a [u64],
}

impl<'a> Rows<'a> {
    // How many rows are whole.
    pub fn len(self) -> usize
        ensures { result ≡ row_count (row_words self.entry.width) self.entry.words.now }
    {
        self.words.len() / self.width.row()
    }

    pub fn statement(self, k: usize) -> usize
        requires { k < row_count (row_words self.width) self.words.now }
        ensures { result ≡ statement_at (row_words self.entry.width) self.entry.words.now k }
    {
        self.words[self.width.row() * k] as usize
    }

    // The name that row k defines.
    pub fn name(self, k: usize) -> usize
        requires { k < row_count (row_words self.width) self.words.now }
        ensures { result ≡ var_at (row_words self.entry.width) self.entry.words.now k }
    {
        self.words[self.width.row() * k + 1] as usize
    }

    // The next name that row k uses, from `from` up; the end of the words where there is none.
    pub fn next_used(self, k: usize, from: usize) -> usize
        requires { k < row_count (row_words self.width) self.words.now }
        ensures { Next (used_words_at (row_words self.entry.width) self.entry.words.now k) (64 * set_words self.entry.width) from result }
    {
        next_at(self.width, self.words, self.width.row() * k + 2, from)
    }

    // The names that row k uses, from the lowest up: `for name in rows.used(k)`.
    pub fn used(self, k: usize) -> Used<'a>
        requires { k < row_count (row_words self.width) self.words.now }
        ensures { (result.rows ≡ self.entry) × (result.k ≡ k) × (result.from ≡ 0) }
    {
        Used {
            rows: self,
            k,
            from: 0,
        }
    }
}
