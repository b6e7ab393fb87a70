// The reader's call: the questions put to a sheet, and its rows in the tables.

#![tactic(auto)]

ghost use Rattle.std.specs.Prelude.{◌≡◌, ◌&&◌, ◌≤◌, leb, length};
ghost use Rattle.std.proofs.lemmas.List.Edits.{sets};
ghost use Rattle.base.specs.Inner.Sizes as sizes;
ghost use Rattle.base.specs.Limits as limit;
ghost use Rattle.names_width.specs.Widths.{limits};
ghost use Rattle.sheet.specs.Inner.Records.{Within};
ghost use Rattle.sheet.specs.Inner.Rows.{in_tables};
ghost use Rattle.sheet.specs.Inner.Answers.{unless_fault};
ghost use Rattle.sheet.specs.Faults.{first_line};
ghost use Rattle.sheet.specs.Verdict.{empty_tables, head_of};
ghost use Rattle.sheet_read.specs.Inner.Verdict.{SheetLeft};
ghost use Rattle.sheet_read.specs.Inner.Asked.{Small, Asked, SheetTaken};

use names_width::Width;
use sheet::{Counts, Refusal, Special};

// Question 1.
fn has_room(tables: usize, work: usize, width: Width) -> bool
    ensures { result ≡ (leb limit.table_entries tables && leb (limits width).work work) }
{
    if tables < base::TABLE_ENTRIES {
        return false;
    }
    width.work() <= work
}

// The counts and the special names in front of the rows.
fn store_head(table: &mut [u16], counts: Counts, special: Special)
    requires { (limit.table_entries ≤ length table.old) × Within counts × Small special }
    ensures { table.new ≡ sets table.old 0 (head_of counts special) }
{
    table[0] = counts.names as u16;
    table[1] = counts.builtins as u16;
    table[2] = counts.exprs as u16;
    table[3] = counts.statements as u16;
    table[4] = counts.queries as u16;
    table[5] = special.blank as u16;
    table[6] = special.input as u16;
    table[7] = special.data as u16;
}

// Question 6.
fn check_fields(table: &[u16], counts: Counts, work: &mut [u64]) -> Result<(), usize>
    requires { (limit.table_entries ≤ length table.now) × (sizes.least_work ≤ length work.old) × Within counts }
    ensures { result ≡ unless_fault (first_line counts (in_tables table.now)) }
{
    match sheet_faults::first_line(table, counts, work) {
        None => Ok(()),
        Some(line) => Err(line),
    }
}

// Questions 2 to 6. Where the sheet is read, its rows are left in the table.
fn ask(s: &[u8], table: &mut [u16], work: &mut [u64], width: Width) -> Result<(), Refusal>
    requires { (table.old ≡ empty_tables) × (sizes.least_work ≤ length work.old) }
    ensures { Asked (limits width) s.now result table.new }
{
    if base::SHEET_BYTES < s.len() {
        return Err(Refusal::TooLong);
    }
    let counts = sheet_form::read_sheet(s, table).map_err(Refusal::BadForm)?;
    sheet_names::check_names(s).map_err(Refusal::BadName)?;
    sheet_counts::check_counts(counts, width).map_err(Refusal::BadCount)?;
    store_head(table, counts, sheet_names::special_names(s));
    check_fields(table, counts, work).map_err(Refusal::BadField)
}

// All questions. Where the sheet is read, its rows are left in the tables; work, and the tables of a refused sheet, are left as they come.
pub fn take(s: &[u8], tables: &mut [u16], work: &mut [u64], width: Width) -> Result<(), Refusal>
    ensures { SheetTaken (limits width) s.now (length tables.old) (length work.old) result tables.new }
{
    buffers::clear(tables);
    if !has_room(tables.len(), work.len(), width) {
        return Err(Refusal::NoRoom);
    }
    ask(s, &mut tables[0..base::TABLE_ENTRIES], work, width)
}

// Reads a sheet into the tables, or refuses it and leaves zeros. Work is zeros afterwards in any case.
pub fn read(s: &[u8], tables: &mut [u16], work: &mut [u64], width: Width) -> Result<(), Refusal>
    ensures { SheetLeft (limits width) s.now (length tables.old) (length work.old) result tables.new work.new }
{
    let outcome = take(s, tables, work, width);
    buffers::clear(work);
    if outcome.is_err() {
        buffers::clear(tables);
    }
    outcome
}
