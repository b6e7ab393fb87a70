// What an analysed query takes from around it. Its block says so, in the last words of the lent work.

ghost use Rattle.std.specs.Prelude.{◌≡◌, ◌≤◌};
ghost use Rattle.names_width.specs.Inner.Widths.{Same};
ghost use Rattle.answer_blocks.specs.Inner.Layout.{word_at, set_at};
ghost use Rattle.answer_blocks.specs.Inner.Asks.{AsksBlock};
ghost use Rattle.definition_state.specs.Inner.Table.{answers_of};
ghost use Rattle.definition_comprs.specs.Inner.Takes.{TakenBy};

use answer_blocks::{INPUT, STATE, answers_of, place_of};
use names::Names;
use names_width::{Width, load_set};

// The inputs, and whether `input` is read.
#[derive(Clone, Copy)]
pub struct Taken {
    pub inputs: Names,
    pub uses: bool,
}

// A word of the query's block, of the first four.
pub fn block_word(work: &[u64], query: usize, i: usize, width: Width) -> u64
    requires { AsksBlock width work.now query × (i ≤ 3) }
    ensures { result ≡ word_at width (answers_of width work.now) query i }
{
    let first = work.len() - answers_of(width);
    let at = place_of(width, query, i);
    work[first + at]
}

// The inputs of the query.
fn block_inputs(work: &[u64], query: usize, width: Width) -> Names
    requires { AsksBlock width work.now query }
    ensures { Same (set_at width (answers_of width work.now) query 2) result.words }
{
    let first = work.len() - answers_of(width);
    let at = place_of(width, query, 4 + width.words() * 2);
    load_set(width, work, first + at)
}

// Nothing, where the query is not analysed.
pub fn taken_by(work: &[u64], query: usize, width: Width) -> Taken
    requires { AsksBlock width work.now query }
    ensures { TakenBy width work.now query result }
{
    let state = block_word(work, query, STATE, width);
    if state == 0 {
        let inputs = Names::empty();
        return Taken {
            inputs,
            uses: false,
        };
    }
    let flag = block_word(work, query, INPUT, width);
    let inputs = block_inputs(work, query, width);
    Taken {
        inputs,
        uses: flag == 1,
    }
}
