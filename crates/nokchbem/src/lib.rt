// The calls of the library. `nokchbem_c` exports them with C linkage.

#![tactic(auto)]

ghost use Rattle.std.specs.Prelude.{◌≡◌, ◌≤◌, length};
ghost use Rattle.base.specs.Limits.{library};
ghost use Rattle.order.specs.Call.{refusal};
ghost use Rattle.nokchbem.specs.Calls.{ScheduleCall, RecordsCall, ReadCall, AnalyzeCall};

use names_width::Width;
use order_records::{Definition, schedule_records};
use order_rows::Rows;
use order_schedule::{number_of, schedule};

// A refusal and its position as one number.
pub fn pack(number: u64, line: usize, col: usize) -> u64
    requires { (number ≤ 65535) × (line ≤ 65535) × (col ≤ 65535) }
    ensures { result ≡ refusal number line col }
{
    number * 0x1_0000_0000 + line as u64 * 0x1_0000 + col as u64
}

// Puts statements into an order in which every name has a value when it is read.
//
// `definitions` are rows of ten words: statement, name (0 is the empty one, 511 the largest), and the eight words of the used names. `order`
// receives the statements in order, `reached` a mark for each; both hold zeros after the first `statements` entries. Returns the mark placed,
// 1 or 0, or refusal 8 as 8 x 2^32 with both buffers zeroed.
pub fn nokchbem_schedule(
    definitions: &[u64],
    statements: usize,
    order: &mut [u16],
    reached: &mut [u16],
) -> u64
    ensures { ScheduleCall definitions.now statements (length order.old) (length reached.old) result order.new reached.new }
{
    let rows = Rows {
        width: Width::Eight,
        words: definitions,
    };
    number_of(schedule(rows, statements, order, reached))
}

// The same as `nokchbem_schedule`, of definitions that are records. More than 640 of them are refused as more than 640 rows are.
pub fn nokchbem_schedule_records(
    records: &[Definition],
    statements: usize,
    order: &mut [u16],
    reached: &mut [u16],
) -> u64
    ensures { RecordsCall records.now statements (length order.old) (length reached.old) result order.new reached.new }
{
    number_of(schedule_records(records, statements, order, reached))
}

// Reads a sheet, and answers whether it passes questions 1 to 6.
//
// `tables` has at least 8,192 entries and receives the sheet's counts and rows; `work` has at least 24,576 words, which are zeros
// afterwards. Returns 0, or a refusal 1 to 6 and the first line at fault as number x 2^32 + line x 2^16, with both buffers zeroed.
pub fn nokchbem_read(sheet: &[u8], tables: &mut [u16], work: &mut [u64]) -> u64
    ensures { ReadCall library sheet.now (length tables.old) (length work.old) result tables.new work.new }
{
    match sheet_read::read(sheet, tables, work, Width::Eight) {
        Ok(()) => 0,
        Err(refusal) => pack(u64::from(refusal.number()), refusal.line(), 0),
    }
}

// Analyses the queries of a sheet, and writes the text of the answer.
//
// `tables` and `work` as above; `answer` receives the text, and zeros behind it. Returns 0; or a refusal 1 to 6 and the first line of the
// sheet at fault, a fault 11 to 14 and its line and column, or 7 where the text does not fit, as number x 2^32 + line x 2^16 + col, with
// `answer` zeroed. `tables` and `work` are zeros afterwards in any case.
pub fn nokchbem_analyze(
    sheet: &[u8],
    tables: &mut [u16],
    work: &mut [u64],
    answer: &mut [u8],
) -> u64
    ensures { AnalyzeCall library sheet.now (length tables.old) (length work.old) (length answer.old) result tables.new work.new answer.new }
{
    let reply = call::analyze(sheet, tables, work, answer, Width::Eight);
    pack(reply.number as u64, reply.line as usize, reply.col as usize)
}
