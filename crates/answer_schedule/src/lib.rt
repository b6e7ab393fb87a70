// The end of a query's analysis: its statements are scheduled, and its answer is stored.

#![tactic(auto)]

ghost use Rattle.std.specs.Prelude.{◌+◌, ◌*◌, ◌≤◌, length};
ghost use Rattle.base.specs.Limits as limits;
ghost use Rattle.names_width.specs.Inner.Widths.{row_words};
ghost use Rattle.answer_blocks.specs.Inner.Layout as layout;
ghost use Rattle.answer_blocks.specs.Inner.Asks.{AsksBlock};
ghost use Rattle.definition_state.specs.Inner.Table.{answers_of, Based};
ghost use Rattle.answer_schedule.specs.Inner.Asks.{AsksConclude};
ghost use Rattle.answer_schedule.specs.Inner.Concluded.{AnswerWritten, Schedulable, Concluded};

use crate::count::count_stmts;
use answer_blocks::answers_of;
use answer_blocks::blocks::Blocks;
use answer_store::query::QueryAnswer;
use base::STATEMENTS;
use names_width::Width;
use order_rows::Rows;
use order_schedule::arrange_rows;
use scope_state::Scope;

pub mod bases;
mod count;

// The block of a query, and its places from where the block says.
fn store_answer(width: Width, words: &mut [u64], query: usize, answer: &QueryAnswer)
    requires asks_block { AsksBlock width words.old query }
    requires places_room { layout.word_at width words.old query 3 + length answer.now.order.now ≤ limits.most_statements }
    ensures { AnswerWritten width words.old query answer.now.scope.now answer.now.spans.now (length answer.now.order.now) answer.now.placed answer.now.order.now answer.now.reached.now words.new }
{
    let base = Blocks { width, words }.base(query);
    answer.store_block(width, words, query, base);
    answer.store_places(width, words, base);
}

// The first `count` rows of `work` are the query's definitions.
pub fn conclude(
    tables: &[u16],
    query: usize,
    scope: Scope,
    spans: &[u32],
    count: usize,
    work: &mut [u64],
    width: Width,
)
    requires asks_conclude { AsksConclude tables.now query spans.now }
    requires room { (row_words width * count + layout.answers_size width ≤ length work.old) × Based width tables.now (answers_of width work.old) }
    requires schedulable { Schedulable width tables.now work.old query count }
    ensures { Concluded width tables.now work.old query scope spans.now count work.new }
{
    let n = count_stmts(tables, query);
    let mut order: [u16; STATEMENTS] = [0; STATEMENTS];
    let mut reached: [u16; STATEMENTS] = [0; STATEMENTS];
    let rows = width.row() * count;
    let list = Rows {
        width,
        words: &work[..rows],
    };
    let placed = arrange_rows(list, n, &mut order, &mut reached);
    let answer = QueryAnswer {
        scope: &scope,
        spans,
        order: &order[..n],
        reached: &reached,
        placed,
    };
    let at = work.len() - answers_of(width);
    store_answer(width, &mut work[at..], query, &answer);
}
