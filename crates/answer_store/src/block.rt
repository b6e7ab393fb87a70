// The block of a query: its first four words, its sets, and where its locals stand.

ghost use Rattle.std.specs.Prelude.{◌≡◌, ◌+◌, ◌≤◌, length};
ghost use Rattle.base.specs.Limits as limits;
ghost use Rattle.answer_blocks.specs.Inner.Asks.{AsksBlock};
ghost use Rattle.answer_blocks.specs.Inner.States.{state_word};
ghost use Rattle.order.specs.Turns.{mark};
ghost use Rattle.answer_store.specs.Inner.Writes.{Written, words_from};
ghost use Rattle.answer_store.specs.Inner.Words.{head_words, BlockWritten};

use answer_blocks::place_of;
use answer_blocks::put::{put_set, put_spans};
use answer_blocks::state::{QuerySet, State};
use names_width::Width;
use scope_state::Scope;

fn state(placed: bool) -> State
    ensures { state_word result ≡ 1 + mark placed }
{
    if placed {
        State::Placed
    } else {
        State::Unplaced
    }
}

// The first four words, in the order of the block.
fn store_head(
    answers: &mut [u64],
    block: usize,
    uses: bool,
    count: usize,
    base: usize,
    placed: bool,
)
    requires { block + 4 ≤ length answers.old }
    ensures { Written answers.old answers.new block 4 (words_from (head_words uses count base placed)) }
{
    let head = [
        u64::from(state(placed)),
        u64::from(uses),
        count as u64,
        base as u64,
    ];
    answers[block..block + head.len()].copy_from_slice(&head);
}

pub fn store_block(
    answers: &mut [u64],
    q: usize,
    scope: &Scope,
    spans: &[u32],
    count: usize,
    base: usize,
    placed: bool,
    width: Width,
)
    requires { AsksBlock width answers.old q × (limits.per_name ≤ length spans.now) }
    ensures { BlockWritten width answers.old q scope.now spans.now count base placed answers.new }
{
    let block = place_of(width, q, 0);
    store_head(answers, block, scope.uses, count, base, placed);
    put_set(width, answers, q, QuerySet::Locals, scope.locals);
    put_set(width, answers, q, QuerySet::Unscoped, scope.unscoped);
    put_set(width, answers, q, QuerySet::Inputs, scope.inputs);
    put_spans(width, answers, q, spans);
}
