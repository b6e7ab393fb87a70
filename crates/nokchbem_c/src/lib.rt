// The exported calls, with C linkage: each is the library's function of its name. A slice passes as a pointer and a length.

#![tactic(auto)]

ghost use Rattle.std.specs.Prelude.{length};
ghost use Rattle.base.specs.Limits.{library};
ghost use Rattle.nokchbem.specs.Calls.{ScheduleCall, RecordsCall, ReadCall, AnalyzeCall};

use order_records::Definition;

#[unsafe(no_mangle)]
pub extern "C" fn nokchbem_schedule(
    definitions: &[u64],
    statements: usize,
    order: &mut [u16],
    reached: &mut [u16],
) -> u64
    ensures { ScheduleCall definitions.now statements (length order.old) (length reached.old) result order.new reached.new }
{
    nokchbem::nokchbem_schedule(definitions, statements, order, reached)
}

#[unsafe(no_mangle)]
pub extern "C" fn nokchbem_schedule_records(
    records: &[Definition],
    statements: usize,
    order: &mut [u16],
    reached: &mut [u16],
) -> u64
    ensures { RecordsCall records.now statements (length order.old) (length reached.old) result order.new reached.new }
{
    nokchbem::nokchbem_schedule_records(records, statements, order, reached)
}

#[unsafe(no_mangle)]
pub extern "C" fn nokchbem_read(sheet: &[u8], tables: &mut [u16], work: &mut [u64]) -> u64
    ensures { ReadCall library sheet.now (length tables.old) (length work.old) result tables.new work.new }
{
    nokchbem::nokchbem_read(sheet, tables, work)
}

#[unsafe(no_mangle)]
pub extern "C" fn nokchbem_analyze(
    sheet: &[u8],
    tables: &mut [u16],
    work: &mut [u64],
    answer: &mut [u8],
) -> u64
    ensures { AnalyzeCall library sheet.now (length tables.old) (length work.old) (length answer.old) result tables.new work.new answer.new }
{
    nokchbem::nokchbem_analyze(sheet, tables, work, answer)
}
