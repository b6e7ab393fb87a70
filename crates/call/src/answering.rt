// Questions 7 and 8, put to the tables of a sheet that passed the others.

ghost use Rattle.std.specs.Prelude.{◌≡◌, List, length, replicate};
ghost use Rattle.definition.specs.States.{QuerySchedule};
ghost use Rattle.answer.specs.Text.{answer_text};
ghost use Rattle.answer.specs.Call.{fitting};
ghost use Rattle.original.specs.Inner.AnalysedOnce.{analysed_once};
ghost use Rattle.answer_text.specs.Inner.Stored.{Stored};
ghost use Rattle.scope_walk.specs.Inner.Sheets.{sheet_at};
ghost use Rattle.definition_state.specs.Inner.Table.{answers_of};
ghost use Rattle.definition_cycle.specs.Inner.Asks.{AsksSheet};
ghost use Rattle.call.specs.Inner.Asks.{AsksAnswer};
ghost use Rattle.call.specs.Inner.Replies.{Replies};

use crate::replies::{Reply, of_fault};
use answer_blocks::answers_of;
use answer_blocks::blocks::Blocks;
use answer_text::answers::Answers;
use answer_text::put_answer;
use answer_write::Text;
use definition_query::snippet::analyze_sheet;
use names_width::Width;

// Question 8, of the answers in the last words of work. The lent bytes are zeros.
fn write_answer(work: &[u64], queries: usize, answer: &mut [u8], width: Width) -> Reply
    requires { AsksAnswer width work.now queries answer.old }
    ensures { (schedules : List QuerySchedule) → Stored width (answers_of width work.now) schedules → Replies (length answer.old) (fitting (length answer.old) (answer_text queries schedules)) result answer.new }
{
    let from = work.len() - answers_of(width);
    let blocks = Blocks {
        width,
        words: &work[from..],
    };
    let mut text = Text::new(answer);
    put_answer(Answers { blocks }, queries, &mut text);
    let end = text.end();
    if answer.len() < end {
        buffers::clear(answer);
        return Reply {
            number: 7,
            line: 0,
            col: 0,
        };
    }
    Reply {
        number: 0,
        line: 0,
        col: 0,
    }
}

// The lent bytes are zeros.
pub fn answer_sheet(tables: &[u16], work: &mut [u64], answer: &mut [u8], width: Width) -> Reply
    requires { AsksSheet tables.now width work.old × (answer.old ≡ replicate (length answer.old) 0) }
    ensures { Replies (length answer.old) (analysed_once (sheet_at tables.now) (length answer.old)) result answer.new }
{
    match analyze_sheet(tables, work, width) {
        None => write_answer(work, tables[4] as usize, answer, width),
        Some(fault) => of_fault(fault),
    }
}
