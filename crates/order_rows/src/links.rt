// The rows of one statement, linked: each statement leads to its last row, and each row to the row before it of the same statement.

ghost use Rattle.std.specs.Prelude.{◌≡◌, ℕ, ◌<◌, ◌≤◌, length, get_or};
ghost use Rattle.std.specs.Iterator.{at_most};
ghost use Rattle.base.specs.Limits as limits;
ghost use Rattle.names_width.specs.Inner.Widths.{row_words};
ghost use Rattle.order.specs.Call.{row_count, statement_at};
ghost use Rattle.order_rows.specs.Inner.Links.{LinksDescend, Linked, ChainSteps};

use crate::Rows;
use base::{DEFINITIONS, STATEMENTS};

// Row k is meant by k + 1, and none by 0: an `Option` is twice as long, and the arrays are cleared at each call.
#[derive(Drop)]
pub struct Links {
    pub first: [u16; STATEMENTS],
    pub next: [u16; DEFINITIONS],
}

impl Links {
    // The rows of a statement, the last first: `for k in links.rows_of(statement)`.
    pub fn rows_of(&self, statement: usize) -> Chain<'_>
        requires { (statement < limits.most_statements) × LinksDescend self.now.first self.now.next }
        ensures { (result.links ≡ self.entry) × (result.at ≡ get_or self.now.first statement 0) }
    {
        Chain {
            links: self,
            at: self.first[statement] as usize,
        }
    }
}

// Those from the row meant by `at` on.
#[derive(Clone, Copy)]
pub struct Chain<'a> {
    pub links: &'a Links,
    pub at: usize,
}

impl Iterator for Chain<'_> {
    type Item = usize;

    ghost can_next = { λ c. (c.at ≤ limits.most_definitions) × LinksDescend c.links.now.first c.links.now.next };

    ghost next_gives = { λ c r after. (after.links ≡ c.links) × ChainSteps c.links.now.next c.at r after.at };

    ghost remaining = { λ c. at_most c.at };

    fn next(&mut self) -> Option<usize> {
        let k = self.at.checked_sub(1)?;
        self.at = self.links.next[k] as usize;
        Some(k)
    }
}

// Links the rows of each statement.
pub fn link(rows: Rows<'_>, links: &mut Links)
    requires few_rows { row_count (row_words rows.width) rows.words.now ≤ limits.most_definitions }
    requires statements_low { (k : ℕ) → k < row_count (row_words rows.width) rows.words.now → statement_at (row_words rows.width) rows.words.now k < limits.most_statements }
    requires links_zeros { (i : ℕ) → (get_or links.old.first i 0 ≡ 0) × (get_or links.old.next i 0 ≡ 0) }
    ensures { Linked (row_words rows.entry.width) rows.entry.words.now links.new.first links.new.next }
{
    for k in 0..rows.len() {
        let statement = rows.statement(k);
        links.next[k] = links.first[statement];
        links.first[statement] = (k + 1) as u16;
    }
}
