// The answer of a query, as its analysis ends.

ghost use Rattle.std.specs.Prelude.{◌+◌, ◌≤◌, length};
ghost use Rattle.base.specs.Limits as limits;
ghost use Rattle.answer_blocks.specs.Inner.Asks.{AsksBlock};
ghost use Rattle.answer_blocks.specs.Inner.Layout as layout;
ghost use Rattle.answer_store.specs.Inner.Asks.{Marked};
ghost use Rattle.answer_store.specs.Inner.Writes.{Written};
ghost use Rattle.answer_store.specs.Inner.Words.{place_word, BlockWritten};

use crate::block::store_block;
use crate::places::store_places;
use names_width::Width;
use scope_state::Scope;

// Its scope, and where its locals stand, by name; its statements in their order, and by statement whether it was reached; and whether all were
// placed.
#[derive(Clone, Copy)]
pub struct QueryAnswer<'a> {
    pub scope: &'a Scope,
    pub spans: &'a [u32],
    pub order: &'a [u16],
    pub reached: &'a [u16],
    pub placed: bool,
    ghost spans_room: { limits.per_name ≤ length spans.now },
    ghost marked: { Marked order.now reached.now },
}

// The functions of `block` and `places` ask for what they use; an answer has all of it.
impl QueryAnswer<'_> {
    pub fn store_block(&self, width: Width, words: &mut [u64], q: usize, base: usize)
        requires { AsksBlock width words.old q }
        ensures { BlockWritten width words.old q self.now.scope.now self.now.spans.now (length self.now.order.now) base self.now.placed words.new }
    {
        let count = self.order.len();
        store_block(
            words,
            q,
            self.scope,
            self.spans,
            count,
            base,
            self.placed,
            width,
        );
    }

    pub fn store_places(&self, width: Width, words: &mut [u64], base: usize)
        requires { (layout.answers_size width ≤ length words.old) × (base + length self.now.order.now ≤ limits.most_statements) }
        ensures { Written words.old words.new (layout.places width + base) (length self.now.order.now) (place_word self.now.order.now self.now.reached.now) }
    {
        let count = self.order.len();
        store_places(words, base, count, self.order, self.reached, width);
    }
}
