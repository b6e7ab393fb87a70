// The names that a row uses, one by one, from the lowest up.

ghost use Rattle.std.specs.Prelude.{◌≡◌, ◌*◌, ◌<◌, ◌-◌};
ghost use Rattle.std.specs.Iterator.{at_most};
ghost use Rattle.names.specs.Inner.Members.{Yields};
ghost use Rattle.names_width.specs.Inner.Widths.{set_words, row_words};
ghost use Rattle.order.specs.Call.{row_count, used_words_at};

use crate::Rows;

// Those of row k from `from` up.
#[derive(Clone, Copy)]
pub struct Used<'a> {
    pub rows: Rows<'a>,
    pub k: usize,
    pub from: usize,
}

impl Iterator for Used<'_> {
    type Item = usize;

    ghost can_next = { λ u. u.k < row_count (row_words u.rows.width) u.rows.words.now };

    ghost next_gives = { λ u r after. (after.rows ≡ u.rows) × (after.k ≡ u.k)
        × Yields (used_words_at (row_words u.rows.width) u.rows.words.now u.k) (64 * set_words u.rows.width) u.from r after.from };

    ghost remaining = { λ u. at_most (64 * set_words u.rows.width - u.from) };

    fn next(&mut self) -> Option<usize> {
        let name = self.rows.next_used(self.k, self.from);
        if name == 64 * self.rows.width.words() {
            return None;
        }
        self.from = name + 1;
        Some(name)
    }
}
