// The statements of each name, a set for each.

ghost use Rattle.std.specs.Prelude.{◌≡◌, ℕ, ◌<◌};
ghost use Rattle.base.specs.Limits as limits;
ghost use Rattle.names.specs.Inner.Sets.{Empty};
ghost use Rattle.names_width.specs.Inner.Widths.{row_words};
ghost use Rattle.order.specs.Call.{row_count, statement_at, var_at};
ghost use Rattle.order_rows.specs.Inner.Masks.{mask_at, Added, Masked};

use crate::Rows;
use names::{CAPACITY, Names, Statements, WORDS, add};

// Puts a statement among those of a name.
pub fn add_to_mask(masks: &mut [Statements; CAPACITY], name: usize, statement: usize)
    requires { (name < limits.per_name) × (statement < limits.most_statements) }
    ensures { Added masks.old name statement masks.new }
{
    masks[name] = masks[name].insert(statement);
}

// Fills the set of statements of each name, and answers the names that have one.
pub fn mask(rows: Rows<'_>, masks: &mut [Statements; CAPACITY]) -> Names
    requires statements_low { (k : ℕ) → k < row_count (row_words rows.width) rows.words.now → statement_at (row_words rows.width) rows.words.now k < limits.most_statements }
    requires names_low { (k : ℕ) → k < row_count (row_words rows.width) rows.words.now → var_at (row_words rows.width) rows.words.now k < limits.per_name }
    requires masks_empty { (x : ℕ) → Empty (mask_at masks.old x) }
    ensures { Masked (row_words rows.entry.width) rows.entry.words.now masks.new result.words }
{
    let mut words: [u64; WORDS] = [0; WORDS];
    for k in 0..rows.len() {
        let name = rows.name(k);
        add_to_mask(masks, name, rows.statement(k));
        add(&mut words, name);
    }
    Names { words }
}
