// Whether the definitions of a statement resolve from the names known.

#![tactic(auto)]

ghost use Rattle.std.specs.Prelude.{◌≡◌, ℕ, ◌<◌, length};
ghost use Rattle.base.specs.Limits as limits;
ghost use Rattle.names_width.specs.Inner.Widths.{row_words};
ghost use Rattle.order.specs.Call.{row_count, var_at};
ghost use Rattle.order_rows.specs.Inner.Links.{Linked};
ghost use Rattle.order_resolve.specs.Inner.Pass.{Passes, Tries};

use names::{Names, add, has};
use order_rows::{Links, Rows};

// What a pass comes to: no definition waits any more, and whether there is a name more than before; or one waits, and there is one more, or none.
#[derive(Clone, Copy, PartialEq, Eq, Debug)]
pub enum Passed {
    Resolved { grew: bool },
    Grew,
    Stuck,
}

// One pass over the definitions of a statement: the names seen get those found to resolve. The test of a definition stops at the first used name
// that is not known yet.
pub fn pass(rows: Rows<'_>, links: &Links, statement: usize, seen: &mut Names) -> Passed
    requires linked { (statement < limits.most_statements) × Linked (row_words rows.width) rows.words.now links.now.first links.now.next }
    requires names_low { (k : ℕ) → k < row_count (row_words rows.width) rows.words.now → var_at (row_words rows.width) rows.words.now k < limits.per_name }
    ensures { (length seen.new.words ≡ 8) × Passes (row_words rows.entry.width) rows.entry.words.now statement seen.old.words seen.new.words result }
{
    let mut waiting = false;
    let mut grew = false;
    'definitions: for k in links.rows_of(statement) {
        for name in rows.used(k) {
            if !has(&seen.words, name) {
                waiting = true;
                continue 'definitions;
            }
        }
        let own = rows.name(k);
        if !has(&seen.words, own) {
            add(&mut seen.words, own);
            grew = true;
        }
    }
    if !waiting {
        Passed::Resolved { grew }
    } else if grew {
        Passed::Grew
    } else {
        Passed::Stuck
    }
}

// Passes until none waits, or one finds nothing more: the names known get those that the statement defines where all resolve, and stay as they
// are where not.
pub fn try_statement(rows: Rows<'_>, links: &Links, statement: usize, known: &mut Names) -> bool
    requires linked { (statement < limits.most_statements) × Linked (row_words rows.width) rows.words.now links.now.first links.now.next }
    requires names_low { (k : ℕ) → k < row_count (row_words rows.width) rows.words.now → var_at (row_words rows.width) rows.words.now k < limits.per_name }
    requires known_len { length known.old.words ≡ 8 }
    ensures { (length known.new.words ≡ 8) × Tries (row_words rows.entry.width) rows.entry.words.now statement known.old.words result known.new.words }
{
    let mut seen = *known;
    loop {
        match pass(rows, links, statement, &mut seen) {
            Passed::Resolved { .. } => {
                *known = seen;
                return true;
            }
            Passed::Grew => {}
            Passed::Stuck => return false,
        }
    }
}
