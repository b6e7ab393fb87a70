// What is said of a query in the section `query placed input`.

ghost use Rattle.std.specs.Prelude.{◌≤◌};
ghost use Rattle.base.specs.Limits as limits;
ghost use Rattle.answer_write.specs.Inner.Texts.{Extends};
ghost use Rattle.answer_text.specs.Inner.Texts.{query_text};

use crate::answers::Answers;
use crate::rows::put_row;
use answer_blocks::state::State;
use answer_write::Text;

impl Answers<'_> {
    // One that is never analysed has placed 2.
    pub(crate) fn put_query(self, q: usize, text: &mut Text)
        requires { (1 ≤ q) × (q ≤ limits.most_queries) }
        ensures { Extends text.old (query_text self.entry.blocks.width self.entry.blocks.words.now q) text.new }
    {
        let input = usize::from(self.blocks.uses_input(q));
        match self.blocks.state(q) {
            State::Unanalysed => put_row(text, &[q, 2, 0]),
            State::Unplaced => put_row(text, &[q, 0, input]),
            State::Placed => put_row(text, &[q, 1, input]),
        }
    }
}
