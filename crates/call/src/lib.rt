// The whole call: all questions put to a sheet, and the text of its answer in lent bytes.

#![tactic(auto)]

mod answering;
pub mod replies;

ghost use Rattle.std.specs.Prelude.{◌≡◌, length, replicate};
ghost use Rattle.names_width.specs.Widths.{limits};
ghost use Rattle.answer.specs.Call.{result_of, left};
ghost use Rattle.call.specs.Inner.Replies.{as_left, Replies};

use crate::answering::answer_sheet;
use crate::replies::{Reply, of_refusal};
use names_width::Width;

// All questions, with lent bytes that are zeros. Tables and work are left as they come.
fn reply_to(
    sheet: &[u8],
    tables: &mut [u16],
    work: &mut [u64],
    answer: &mut [u8],
    width: Width,
) -> Reply
    requires { answer.old ≡ replicate (length answer.old) 0 }
    ensures { Replies (length answer.old) (result_of (limits width) sheet.now (length tables.old) (length work.old) (length answer.old)) result answer.new }
{
    match sheet_read::take(sheet, tables, work, width) {
        Ok(()) => answer_sheet(&tables[..base::TABLE_ENTRIES], work, answer, width),
        Err(refusal) => of_refusal(refusal),
    }
}

// The answer's text, or a refusal and zeros. Tables and work are zeros afterwards in any case.
pub fn analyze(
    sheet: &[u8],
    tables: &mut [u16],
    work: &mut [u64],
    answer: &mut [u8],
    width: Width,
) -> Reply
    ensures { as_left result tables.new work.new answer.new ≡ left (limits width) sheet.now (length tables.old) (length work.old) (length answer.old) }
{
    buffers::clear(answer);
    let reply = reply_to(sheet, tables, work, answer, width);
    buffers::clear(tables);
    buffers::clear(work);
    reply
}
