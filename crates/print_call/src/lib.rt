// The printing program's call with C linkage, for comparisons and benchmarks: a host has `nokchbem_analyze`, which takes more names.

#![tactic(auto)]

ghost use Rattle.std.specs.Prelude.{length};
ghost use Rattle.base.specs.Limits.{printing};
ghost use Rattle.nokchbem.specs.Calls.{AnalyzeCall};

use names_width::Width;

// As `nokchbem_analyze`, with the printing program's limits: 127 names, and at least 8,192 words of work.
#[unsafe(no_mangle)]
pub extern "C" fn nokchbem_narrow(
    sheet: &[u8],
    tables: &mut [u16],
    work: &mut [u64],
    answer: &mut [u8],
) -> u64
    ensures { AnalyzeCall printing sheet.now (length tables.old) (length work.old) (length answer.old) result tables.new work.new answer.new }
{
    let reply = call::analyze(sheet, tables, work, answer, Width::Two);
    nokchbem::pack(reply.number as u64, reply.line as usize, reply.col as usize)
}
