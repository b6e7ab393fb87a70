// Definitions as records, and the scheduler's call over a lent run of them.

#![tactic(auto)]

ghost use Rattle.std.specs.Prelude.{◌≡◌, ◌*◌, ◌<◌, ◌≤◌, length, take};
ghost use Rattle.base.specs.Limits as limits;
ghost use Rattle.base.specs.Limits.{library};
ghost use Rattle.order_schedule.specs.Inner.Call.{Scheduled};
ghost use Rattle.order_records.specs.Records.{rows_of_records};
ghost use Rattle.order_records.specs.Inner.Puts.{RowPut};

use base::{DEFINITIONS, WORDS};
use names_width::Width;
use order::{Refused, ScheduleOutcome};
use order_rows::Rows;
use order_schedule::schedule;

// The words of a row: sets have eight.
const ROW: usize = 10;

// The words of as many rows as a list may have.
pub const ROWS: usize = ROW * DEFINITIONS;

// A statement, the name that it defines, and the names that it uses; laid out for C.
#[repr(C)]
#[derive(Clone, Copy)]
pub struct Definition {
    pub statement: u16,
    pub name: u16,
    pub used: [u64; WORDS],
}

// Makes row i the record's.
fn put_row(words: &mut [u64; ROWS], i: usize, definition: &Definition)
    requires { i < limits.most_definitions }
    ensures { RowPut words.old i definition.now words.new }
{
    let at = ROW * i;
    words[at] = definition.statement as u64;
    words[at + 1] = definition.name as u64;
    words[at + 2..at + ROW].copy_from_slice(&definition.used);
}

// The rows of the records.
fn rows_of(records: &[Definition]) -> [u64; ROWS]
    requires { length records.now ≤ limits.most_definitions }
    ensures { take (10 * length records.now) result ≡ rows_of_records records.now }
{
    let mut words = [0u64; ROWS];
    for i in 0..records.len() {
        put_row(&mut words, i, &records[i]);
    }
    words
}

// The scheduler's call over records.
pub fn schedule_records(
    records: &[Definition],
    statements: usize,
    order: &mut [u16],
    reached: &mut [u16],
) -> ScheduleOutcome
    ensures { Scheduled library (rows_of_records records.now) statements (length order.old) (length reached.old) result order.new reached.new }
{
    if DEFINITIONS < records.len() {
        order.fill(0);
        reached.fill(0);
        return Err(Refused::BadList);
    }
    let words = rows_of(records);
    let rows = Rows {
        width: Width::Eight,
        words: &words[..ROW * records.len()],
    };
    schedule(rows, statements, order, reached)
}
