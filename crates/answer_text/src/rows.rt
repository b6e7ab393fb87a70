// Rows of values as lines.

ghost use Rattle.std.specs.Prelude.{◌≤◌, All};
ghost use Rattle.base.specs.Limits as limits;
ghost use Rattle.answer.specs.Text.{row_line};
ghost use Rattle.answer_write.specs.Inner.Texts.{Extends};

use answer_write::Text;

pub fn put_row(text: &mut Text, row: &[usize])
    requires { All (λ n. n ≤ limits.largest_value) row.now }
    ensures { Extends text.old (row_line row.now) text.new }
{
    let Some((last, front)) = row.split_last() else {
        text.put(b'\n');
        return;
    };
    for value in front {
        text.put_value(*value, b' ');
    }
    text.put_value(*last, b'\n');
}
