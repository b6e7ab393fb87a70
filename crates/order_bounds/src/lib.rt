// The one question put to a list of definitions before it is scheduled.

#![tactic(auto)]

ghost use Rattle.std.specs.Prelude.{◌≡◌, ◌<◌};
ghost use Rattle.base.specs.Lists.{all};
ghost use Rattle.names_width.specs.Widths.{limits};
ghost use Rattle.names_width.specs.Inner.Widths.{row_words};
ghost use Rattle.order.specs.Call.{row_count, definition_at, definitions, within, accepts};

use base::{DEFINITIONS, STATEMENTS};
use order_rows::Rows;

// Is row k's statement below the count, and its name within the limit?
fn is_within(rows: Rows<'_>, n: usize, k: usize) -> bool
    requires { k < row_count (row_words rows.width) rows.words.now }
    ensures { result ≡ within (limits rows.entry.width) n (definition_at (row_words rows.entry.width) rows.entry.words.now k) }
{
    rows.statement(k) < n && rows.name(k) <= rows.width.names()
}

// Is each row?
pub fn all_within(rows: Rows<'_>, n: usize) -> bool
    ensures { result ≡ all (within (limits rows.entry.width) n) (definitions (row_words rows.entry.width) rows.entry.words.now) }
{
    for k in 0..rows.len() {
        if !is_within(rows, n, k) {
            return false;
        }
    }
    true
}

// Are the rows whole, the counts and every definition in bounds, and the buffers, of these lengths, long enough?
#[tactic(auto, unfolding(order::specs::Call::accepts))]
pub fn admits(rows: Rows<'_>, n: usize, room: usize, marks: usize) -> bool
    ensures { result ≡ accepts (limits rows.entry.width) rows.entry.words.now n room marks }
{
    rows.words.len() % rows.width.row() == 0
        && n <= STATEMENTS
        && rows.len() <= DEFINITIONS
        && n <= room
        && n <= marks
        && all_within(rows, n)
}
