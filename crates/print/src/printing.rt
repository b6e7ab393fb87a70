// The text that is printed of a sheet.

ghost use Rattle.std.specs.Prelude.{◌≡◌, ◌≤◌, length, take};
ghost use Rattle.base.specs.Limits.{printing};
ghost use Rattle.answer_write.specs.Inner.Writes.{Puts};
ghost use Rattle.answer.specs.Text.{refusal_text};
ghost use Rattle.answer.specs.Call.{result_of, printed};
ghost use Rattle.io.specs.Counts.{IsPrefixLen};
ghost use Rattle.print.specs.Inner.Ends.{Ends};

use answer_text::rows::put_row;
use answer_write::Text;
use names_width::Width;

fn put_refusal(answer: &mut [u8], number: usize, line: usize, col: usize) -> usize
    requires { (number ≤ 65535) × (line ≤ 65535) × (col ≤ 65535) }
    ensures { Puts answer.old 0 (refusal_text number line col) answer.new result }
{
    let mut text = Text::new(answer);
    text.put_bytes(b"refusal line col\n");
    put_row(&mut text, &[number, line, col]);
    text.put(b'\n');
    text.end()
}

// How many bytes stand in front of the first zero.
fn text_length(text: &[u8]) -> usize
    ensures { Ends text.now result }
{
    text.iter()
        .position(|byte| *byte == 0)
        .unwrap_or(text.len())
}

// Answers how many bytes are to be printed. Any refusal has room in 64.
pub fn put_printed(sheet: &[u8], tables: &mut [u16], work: &mut [u64], answer: &mut [u8]) -> usize
    requires { 64 ≤ length answer.old }
    ensures fits { IsPrefixLen result answer.new }
    ensures text { take result answer.new ≡ printed (result_of printing sheet.now (length tables.old) (length work.old) (length answer.old)) }
{
    let reply = call::analyze(sheet, tables, work, answer, Width::Two);
    if reply.number != 0 {
        return put_refusal(
            answer,
            reply.number as usize,
            reply.line as usize,
            reply.col as usize,
        );
    }
    text_length(answer)
}
